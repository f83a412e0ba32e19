ghost use Rattle.std.specs.Prelude.{◌≡◌, ◌<◌, ◌≤◌, ◌+◌, ◌*◌, [], ◌∷◌, IfSome, OnSome, Contains};
ghost use Rattle.gl_draws.specs.Ties.{counted};
ghost use Rattle.gl_model.specs.declared.limits.TheConstants.{MONITORS};
ghost use Rattle.gl_events.specs.Answers.{MayCall};
ghost use Rattle.gl_events.specs.declared.call.Call.TheVariants as call;
ghost use Rattle.gl_rule.specs.Bounded.{most_entries};
ghost use Rattle.gl_segments.specs.Rings.{IsRing};

use crate::{Done, Stop, begin, end, enter, exit, fork, print};
use gl_model::{Classes, Ending, Inputs};
use gl_segments::Ring;
use gl_table::{Layout, Pass, Shared};
use std::alloc::Global;
use std::test::Fail;
use std::thread;
use std::thread::Threads;

// Threads are forked with function 1.
fn layout(alloc: Global) -> Option<Layout>
    ensures ring { IfSome result (λ l. IsRing l.ring) }
    ensures main { IfSome result (λ l. l.main ≡ 0) }
    ensures starts { IfSome result (λ l. l.starts.items ≡ 1 ∷ []) }
{
    let mut starts = Vec::new(alloc);
    let Ok(()) = starts.push(1) else {
        return None;
    };
    Some(Layout {
        classes: Classes::empty(alloc),
        inputs: Inputs::empty(alloc),
        main: 0,
        starts,
        ring: Ring::standard(),
    })
}

// A table with the pass of its first thread, which has room for four entries.
fn first_pass(alloc: Global) -> Option<(Shared, Pass)>
    ensures may { IfSome result (λ r. MayCall call.Begin r.0 r.1) }
    ensures first { IfSome result (λ r. r.1.own.mine ≡ []) }
    ensures room { IfSome result (λ r. 3 < r.1.spare) }
{
    let Some(layout) = layout(alloc) else {
        return None;
    };
    let Ok((shared, mut passes)) = Shared::new(alloc, layout) else {
        return None;
    };
    if passes.is_empty() {
        return None;
    }
    let mut zero = passes.remove(0);
    let Ok(()) = zero.reserve(4) else {
        return None;
    };
    Some((shared, zero))
}

// A thread begins, leaves a monitor that it is not in, and ends; its list is closed then.
fn whole_life(shared: &Shared, pass: &mut Pass) -> Option<(Done, Done, Done)>
    requires may { MayCall call.Begin shared.now pass.old }
    requires first { pass.old.own.mine ≡ [] }
    requires room { 3 < pass.old.spare }
{
    let Ok(first) = begin(shared, pass) else {
        return None;
    };
    let Ok(refused) = exit(shared, pass, 5) else {
        return None;
    };
    let Ok(last) = end(shared, pass) else {
        return None;
    };
    pass.over(Ending::Halt);
    Some((first, refused, last))
}

// Thread 0 runs alone: each event stands at its position, and to leave a monitor that it is not in has the code 5.
#[test]
fn one_thread_runs(rt: HostRuntime) -> Result<(), Fail> {
    let Some((shared, mut zero)) = first_pass(rt.alloc()) else {
        panic!(rt; "no memory")
    };
    let Some((first, refused, last)) = whole_life(&shared, &mut zero) else {
        panic!(rt; "nobody else holds the list")
    };
    assert_eq!(rt; (first.at, first.value, first.func), (0, 0, 0));
    assert_eq!(rt; (refused.at, refused.value, refused.code), (1, 0, 5));
    assert_eq!(rt; last.at, 2);
    assert!(rt; zero.is_done());
    Ok(())
}

// The thread enters the monitor, and may go on.
fn entered(shared: &Shared, pass: &mut Pass, monitor: u16) -> Option<u64>
    requires may { MayCall call.End shared.now pass.old }
    requires few { counted pass.old.own.mine + 1 < most_entries }
    requires there { monitor < MONITORS }
    requires room { 1 < pass.old.spare }
    ensures may { OnSome result (MayCall call.End shared.now pass.new) }
    ensures count { OnSome result (counted pass.new.own.mine ≡ counted pass.old.own.mine + 1) }
    ensures room { OnSome result (pass.old.spare ≡ pass.new.spare + 1) }
{
    match enter(shared, pass, monitor) {
        Ok(done) => Some(done.at),
        Err(_) => None,
    }
}

// The thread leaves the monitor, or is told that it is not in it, and may go on.
fn left(shared: &Shared, pass: &mut Pass, monitor: u16) -> Option<Done>
    requires may { MayCall call.End shared.now pass.old }
    requires few { counted pass.old.own.mine + 1 < most_entries }
    requires there { monitor < MONITORS }
    requires room { 1 < pass.old.spare }
    ensures may { OnSome result (MayCall call.End shared.now pass.new) }
    ensures count { OnSome result (counted pass.new.own.mine ≡ counted pass.old.own.mine + 1) }
    ensures room { OnSome result (pass.old.spare ≡ pass.new.spare + 1) }
{
    match exit(shared, pass, monitor) {
        Ok(done) => Some(done),
        Err(_) => None,
    }
}

// One after the other; answers the position of the second event, or nothing where leaving had a code.
fn round(shared: &Shared, pass: &mut Pass, monitor: u16) -> Option<u64>
    requires may { MayCall call.End shared.now pass.old }
    requires few { counted pass.old.own.mine + 2 < most_entries }
    requires there { monitor < MONITORS }
    requires room { 2 < pass.old.spare }
    ensures may { OnSome result (MayCall call.End shared.now pass.new) }
    ensures count { OnSome result (counted pass.new.own.mine ≡ counted pass.old.own.mine + 2) }
    ensures room { OnSome result (pass.old.spare ≡ pass.new.spare + 2) }
{
    let Some(_) = entered(shared, pass, monitor) else {
        return None;
    };
    let Some(done) = left(shared, pass, monitor) else {
        return None;
    };
    if done.code != 0 {
        return None;
    }
    Some(done.at)
}

// So many rounds; answers the position of the last event, or 0 where there was none.
fn rounds(shared: &Shared, pass: &mut Pass, monitor: u16, count: u16) -> Option<u64>
    requires may { MayCall call.End shared.now pass.old }
    requires few { counted pass.old.own.mine + 2 * count < most_entries }
    requires there { monitor < MONITORS }
    requires room { 2 * count < pass.old.spare }
    ensures may { OnSome result (MayCall call.End shared.now pass.new) }
{
    let mut last = 0;
    for _ in 0..count {
        match round(shared, pass, monitor) {
            Some(at) => last = at,
            None => return None,
        }
    }
    Some(last)
}

// The thread begins, and may go on.
fn begun(shared: &Shared, pass: &mut Pass) -> Option<Done>
    requires may { MayCall call.Begin shared.now pass.old }
    requires first { pass.old.own.mine ≡ [] }
    requires room { 1 < pass.old.spare }
    ensures may { OnSome result (MayCall call.End shared.now pass.new) }
    ensures count { OnSome result (counted pass.new.own.mine ≡ 1) }
    ensures room { OnSome result (pass.old.spare ≡ pass.new.spare + 1) }
{
    match begin(shared, pass) {
        Ok(done) => Some(done),
        Err(_) => None,
    }
}

// A thread begins, and goes through so many rounds.
fn begun_and_rounds(shared: &Shared, pass: &mut Pass) -> Option<u64>
    requires may { MayCall call.Begin shared.now pass.old }
    requires first { pass.old.own.mine ≡ [] }
    requires room { 2001 < pass.old.spare }
    ensures may { OnSome result (MayCall call.End shared.now pass.new) }
{
    let Some(_) = begun(shared, pass) else {
        return None;
    };
    let Some(at) = rounds(shared, pass, 7, 1000) else {
        return None;
    };
    Some(at)
}

// Thread 0 begins at position 0, and enters and leaves a monitor 1,000 times: the last event stands at position 2,000.
#[test]
fn a_monitor_is_entered_and_left_a_thousand_times(rt: HostRuntime) -> Result<(), Fail> {
    let Some((shared, mut zero)) = first_pass(rt.alloc()) else {
        panic!(rt; "no memory")
    };
    let Ok(()) = zero.reserve(2002) else {
        panic!(rt; "no memory")
    };
    let Some(last) = begun_and_rounds(&shared, &mut zero) else {
        panic!(rt; "nobody else holds the list")
    };
    assert_eq!(rt; last, 2000);
    Ok(())
}

// A table with the passes of its first two threads, which have room for some entries.
fn two_passes(alloc: Global) -> Option<(Shared, Pass, Pass)>
    ensures may { IfSome result (λ r. MayCall call.Begin r.0 r.1 × MayCall call.Begin r.0 r.2) }
    ensures first { IfSome result (λ r. (r.1.own.mine ≡ []) × (r.2.own.mine ≡ [])) }
    ensures room { IfSome result (λ r. (9 < r.1.spare) × (9 < r.2.spare)) }
    ensures starts { IfSome result (λ r. Contains r.0.key.setting.forkable 1) }
{
    let Some(layout) = layout(alloc) else {
        return None;
    };
    let Ok((shared, mut passes)) = Shared::new(alloc, layout) else {
        return None;
    };
    if passes.len() < 2 {
        return None;
    }
    let mut zero = passes.remove(0);
    let mut one = passes.remove(0);
    let (Ok(()), Ok(())) = (zero.reserve(10), one.reserve(10)) else {
        return None;
    };
    Some((shared, zero, one))
}

// The thread forks another with function 1 and the value 9, and may go on.
fn forked(shared: &Shared, pass: &mut Pass) -> Option<Done>
    requires may { MayCall call.End shared.now pass.old }
    requires few { counted pass.old.own.mine + 1 < most_entries }
    requires starts { Contains shared.now.key.setting.forkable 1 }
    requires room { 1 < pass.old.spare }
    ensures may { OnSome result (MayCall call.End shared.now pass.new) }
    ensures count { OnSome result (counted pass.new.own.mine ≡ counted pass.old.own.mine + 1) }
    ensures room { OnSome result (pass.old.spare ≡ pass.new.spare + 1) }
{
    match fork(shared, pass, 1, 9) {
        Ok(done) => Some(done),
        Err(_) => None,
    }
}

// The thread asks to begin, and is told why it cannot; it may ask again.
fn cannot_begin(shared: &Shared, pass: &mut Pass) -> Option<Stop>
    requires may { MayCall call.Begin shared.now pass.old }
    requires first { pass.old.own.mine ≡ [] }
    ensures may { OnSome result (MayCall call.Begin shared.now pass.new) }
    ensures first { OnSome result (pass.new.own.mine ≡ []) }
    ensures room { OnSome result (pass.new.spare ≡ pass.old.spare) }
{
    match begin(shared, pass) {
        Ok(_) => None,
        Err(stop) => Some(stop),
    }
}

// The thread asks to enter a monitor, and is told why it cannot; it may go on.
fn cannot_enter(shared: &Shared, pass: &mut Pass, monitor: u16) -> Option<Stop>
    requires may { MayCall call.End shared.now pass.old }
    requires there { monitor < MONITORS }
    ensures may { OnSome result (MayCall call.End shared.now pass.new) }
    ensures count { OnSome result (counted pass.new.own.mine ≡ counted pass.old.own.mine) }
    ensures room { OnSome result (pass.new.spare ≡ pass.old.spare) }
{
    match enter(shared, pass, monitor) {
        Ok(_) => None,
        Err(stop) => Some(stop),
    }
}

// Thread 1 cannot begin before it is forked. Thread 0 begins and forks it; then it begins.
fn two_begin(shared: &Shared, zero: &mut Pass, one: &mut Pass) -> Option<(Stop, Done, Done, Done)>
    requires may { MayCall call.Begin shared.now zero.old × MayCall call.Begin shared.now one.old }
    requires first { (zero.old.own.mine ≡ []) × (one.old.own.mine ≡ []) }
    requires room { (9 < zero.old.spare) × (9 < one.old.spare) }
    requires starts { Contains shared.now.key.setting.forkable 1 }
    ensures may { OnSome result (MayCall call.End shared.now zero.new × MayCall call.End shared.now one.new) }
    ensures count { OnSome result ((counted zero.new.own.mine ≡ 2) × (counted one.new.own.mine ≡ 1)) }
    ensures room { OnSome result ((zero.old.spare ≡ zero.new.spare + 2) × (one.old.spare ≡ one.new.spare + 1)) }
{
    let Some(early) = cannot_begin(shared, one) else {
        return None;
    };
    let Some(first) = begun(shared, zero) else {
        return None;
    };
    let Some(fork) = forked(shared, zero) else {
        return None;
    };
    let Some(second) = begun(shared, one) else {
        return None;
    };
    Some((early, first, fork, second))
}

// Thread 1 enters monitor 5. Thread 0 cannot enter it, nor leave it.
fn two_meet(shared: &Shared, zero: &mut Pass, one: &mut Pass) -> Option<(u64, Stop, Done)>
    requires may { MayCall call.End shared.now zero.old × MayCall call.End shared.now one.old }
    requires count { (counted zero.old.own.mine ≡ 2) × (counted one.old.own.mine ≡ 1) }
    requires room { (7 < zero.old.spare) × (7 < one.old.spare) }
    ensures may { OnSome result (MayCall call.End shared.now zero.new × MayCall call.End shared.now one.new) }
{
    let Some(at) = entered(shared, one, 5) else {
        return None;
    };
    let Some(stop) = cannot_enter(shared, zero, 5) else {
        return None;
    };
    let Some(refused) = left(shared, zero, 5) else {
        return None;
    };
    Some((at, stop, refused))
}

// Two passes in one thread: where each event stands, with which value, and why a call does nothing.
#[test]
fn two_passes_meet(rt: HostRuntime) -> Result<(), Fail> {
    let Some((shared, mut zero, mut one)) = two_passes(rt.alloc()) else {
        panic!(rt; "no memory")
    };
    let Some((early, first, fork, second)) = two_begin(&shared, &mut zero, &mut one) else {
        panic!(rt; "nobody else holds the list")
    };
    let Stop::NotForked { live } = early else {
        panic!(rt; "thread 1 was not forked")
    };
    assert_eq!(rt; live, 1);
    assert_eq!(rt; first.at, 0);
    assert_eq!(rt; (fork.at, fork.value), (1, 1));
    assert_eq!(rt; (second.at, second.value, second.func), (2, 9, 1));
    let Some((at, stop, refused)) = two_meet(&shared, &mut zero, &mut one) else {
        panic!(rt; "nobody else holds the list")
    };
    assert_eq!(rt; at, 3);
    let Stop::Blocked { owner } = stop else {
        panic!(rt; "thread 1 is in the monitor")
    };
    assert_eq!(rt; owner, 1);
    assert_eq!(rt; (refused.at, refused.value, refused.code), (4, 0, 5));
    Ok(())
}

// The thread tries to print, and may go on either way; answers whether it did.
fn printed(shared: &Shared, pass: &mut Pass) -> bool
    requires may { MayCall call.End shared.now pass.old }
    requires few { counted pass.old.own.mine + 1 < most_entries }
    requires room { 1 < pass.old.spare }
    ensures may { MayCall call.End shared.now pass.new }
    ensures count { counted pass.new.own.mine ≤ counted pass.old.own.mine + 1 }
    ensures room { pass.old.spare ≤ pass.new.spare + 1 }
{
    match print(shared, pass, 7) {
        Ok(_) => true,
        Err(_) => false,
    }
}

// How often the thread printed, in so many tries.
fn prints(shared: &Shared, pass: &mut Pass, tries: u32) -> u32
    requires may { MayCall call.End shared.now pass.old }
    requires few { counted pass.old.own.mine + tries < most_entries }
    requires room { tries < pass.old.spare }
    ensures few { result ≤ tries }
    ensures may { MayCall call.End shared.now pass.new }
{
    let mut done = 0;
    for _ in 0..tries {
        if printed(shared, pass) {
            done += 1;
        }
    }
    done
}

// What a thread of its own does with the pass, which it hands back.
fn prints_with(shared: &Shared, pass: Pass) -> (u32, Pass)
    requires may { MayCall call.End shared.now pass }
    requires few { counted pass.own.mine ≤ 2 }
    requires room { 1000 < pass.spare }
    ensures few { result.0 ≤ 1000 }
    ensures may { MayCall call.End shared.now result.1 }
{
    let mut pass = pass;
    let done = prints(shared, &mut pass, 1000);
    (done, pass)
}

// Two threads side by side, each with its pass; both passes may go on then.
fn both<R: Threads + Sync>(
    rt: &R,
    shared: &Shared,
    zero: Pass,
    one: Pass,
) -> ((u32, Pass), (u32, Pass))
    requires may { MayCall call.End shared.now zero × MayCall call.End shared.now one }
    requires count { (counted zero.own.mine ≡ 2) × (counted one.own.mine ≡ 1) }
    requires room { (1000 < zero.spare) × (1000 < one.spare) }
    ensures few { (result.0.0 ≤ 1000) × (result.1.0 ≤ 1000) }
    ensures may { MayCall call.End shared.now result.0.1 × MayCall call.End shared.now result.1.1 }
{
    thread::join(
        rt,
        move || -> (u32, Pass)
            requires { MayCall call.End shared.now zero × (counted zero.own.mine ≡ 2) × (1000 < zero.spare) }
            ensures { (result.0 ≤ 1000) × MayCall call.End shared.entry.now result.1 }
        { prints_with(shared, zero) },
        move || -> (u32, Pass)
            requires { MayCall call.End shared.now one × (counted one.own.mine ≡ 1) × (1000 < one.spare) }
            ensures { (result.0 ≤ 1000) × MayCall call.End shared.entry.now result.1 }
        { prints_with(shared, one) },
    )
}

// Two threads try to print 1,000 times each, side by side: who tries first finds the list free, and the tail is behind all that they did.
#[test]
fn two_threads_print(rt: HostRuntime) -> Result<(), Fail> {
    let Some((shared, mut zero, mut one)) = two_passes(rt.alloc()) else {
        panic!(rt; "no memory")
    };
    let (Ok(()), Ok(())) = (zero.reserve(1010), one.reserve(1010)) else {
        panic!(rt; "no memory")
    };
    let Some(_) = two_begin(&shared, &mut zero, &mut one) else {
        panic!(rt; "nobody else holds the list")
    };
    let ((first, mut zero), (second, _)) = both(&rt, &shared, zero, one);
    assert!(rt; first > 0 || second > 0);
    assert_eq!(rt; shared.tail(&mut zero), 3 + first as u64 + second as u64);
    Ok(())
}
