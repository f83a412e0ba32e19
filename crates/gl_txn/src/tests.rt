ghost use Rattle.std.specs.Prelude.{◌≡◌, ◌<◌, [], IfSome, OnSome};
ghost use Rattle.gl_segments.specs.Rings.{IsRing};
ghost use Rattle.gl_model.specs.declared.limits.TheConstants.{VARIABLES};
ghost use Rattle.gl_events.specs.Answers.{MayCall};
ghost use Rattle.gl_events.specs.declared.call.Call.TheVariants as call;
ghost use Rattle.gl_txn.specs.Attempts.{nothing};
ghost use Rattle.gl_txn.specs.Trying.{MayTry};

use crate::{TxEnd, Txn};
use gl_events::begin;
use gl_model::{Classes, Inputs};
use gl_rows::Window;
use gl_segments::Ring;
use gl_shortcut::Cuts;
use gl_table::{Layout, Pass, Shared};
use std::alloc::Global;
use std::test::Fail;

fn layout(alloc: Global) -> Layout
    ensures ring { IsRing result.ring }
    ensures main { result.main ≡ 0 }
    ensures starts { result.starts.items ≡ [] }
{
    Layout {
        classes: Classes::empty(alloc),
        inputs: Inputs::empty(alloc),
        main: 0,
        starts: Vec::new(alloc),
        ring: Ring::standard(),
    }
}

// A table with the pass of its first thread, which has room for two entries.
fn first_pass(alloc: Global) -> Option<(Shared, Pass)>
    ensures may { IfSome result (λ r. MayCall call.Begin r.0 r.1) }
    ensures first { IfSome result (λ r. r.1.own.mine ≡ []) }
    ensures room { IfSome result (λ r. 1 < r.1.spare) }
{
    let Ok((shared, mut passes)) = Shared::new(alloc, layout(alloc)) else {
        return None;
    };
    if passes.is_empty() {
        return None;
    }
    let mut zero = passes.remove(0);
    let Ok(()) = zero.reserve(2) else {
        return None;
    };
    Some((shared, zero))
}

// The thread begins, and may go on with an attempt that has done nothing.
fn begun(shared: &Shared, pass: &mut Pass) -> Option<u64>
    requires may { MayCall call.Begin shared.now pass.old }
    requires first { pass.old.own.mine ≡ [] }
    requires room { 1 < pass.old.spare }
    ensures may { IfSome result (λ at. MayTry shared.now pass.new nothing) }
    ensures room { OnSome result (0 < pass.new.spare) }
{
    match begin(shared, pass) {
        Ok(done) => Some(done.at),
        Err(_) => None,
    }
}

// The attempt reads a variable, and may go on.
fn read(shared: &Shared, pass: &mut Pass, txn: &mut Txn, var: u16) -> Option<i64>
    requires may { MayTry shared.now pass.old txn.old }
    requires there { var < VARIABLES }
    requires room { 0 < pass.old.spare }
    ensures may { OnSome result (MayTry shared.now pass.new txn.new) }
    ensures room { OnSome result (0 < pass.new.spare) }
{
    match txn.read(shared, pass, var) {
        Ok(value) => Some(value),
        Err(_) => None,
    }
}

// It writes one, and may go on.
fn write(shared: &Shared, pass: &Pass, txn: &mut Txn, var: u16, value: i64) -> Option<()>
    requires may { MayTry shared.now pass.now txn.old }
    requires there { var < VARIABLES }
    ensures may { OnSome result (MayTry shared.now pass.now txn.new) }
{
    let _shared = shared;
    let _pass = pass;
    match txn.write(var, value) {
        Ok(()) => Some(()),
        Err(_) => None,
    }
}

// It reads the variable, writes it, and reads what it wrote.
fn changed(
    shared: &Shared,
    pass: &mut Pass,
    txn: &mut Txn,
    var: u16,
    value: i64,
) -> Option<(i64, i64)>
    requires may { MayTry shared.now pass.old txn.old }
    requires there { var < VARIABLES }
    requires room { 0 < pass.old.spare }
    ensures may { OnSome result (MayTry shared.now pass.new txn.new) }
    ensures room { OnSome result (0 < pass.new.spare) }
{
    let Some(before) = read(shared, pass, txn, var) else {
        return None;
    };
    let Some(()) = write(shared, pass, txn, var, value) else {
        return None;
    };
    let Some(after) = read(shared, pass, txn, var) else {
        return None;
    };
    Some((before, after))
}

// It ends with its writes; the pass holds nothing then.
fn ended(alloc: Global, shared: &Shared, pass: &mut Pass, txn: Txn) -> Option<TxEnd>
    requires may { MayTry shared.now pass.old txn }
    requires room { 0 < pass.old.spare }
    ensures table { OnSome result (pass.new.own.table ≡ shared.now.id) }
    ensures held { OnSome result (pass.new.own.held ≡ []) }
{
    let Ok(mut window) = Window::new(alloc, shared.ring()) else {
        return None;
    };
    match txn.commit(shared, pass, true, &Cuts::none(), &mut window) {
        Ok(end) => Some(end),
        Err(_) => None,
    }
}

// The word of a row, which goes back as it was.
fn word(shared: &Shared, pass: &mut Pass, var: u16) -> Option<i64>
    requires table { pass.old.own.table ≡ shared.now.id }
    requires near { var < VARIABLES }
    requires held { pass.old.own.held ≡ [] }
{
    let Ok(kept) = shared.take_row(pass, var) else {
        return None;
    };
    let word = kept.row().value;
    shared.put_row(pass, var, kept);
    Some(word)
}

// A whole attempt on a variable: what it reads at first and behind its write, how it ends, and the word of the row then.
fn whole_attempt(
    alloc: Global,
    shared: &Shared,
    pass: &mut Pass,
    var: u16,
    value: i64,
) -> Option<(i64, i64, TxEnd, i64)>
    requires may { MayTry shared.now pass.old nothing }
    requires there { var < VARIABLES }
    requires room { 0 < pass.old.spare }
{
    let Ok(mut txn) = Txn::begin(alloc) else {
        return None;
    };
    let Some((before, after)) = changed(shared, pass, &mut txn, var, value) else {
        return None;
    };
    let Some(end) = ended(alloc, shared, pass, txn) else {
        return None;
    };
    let Some(now) = word(shared, pass, var) else {
        return None;
    };
    Some((before, after, end, now))
}

// Thread 0 begins at position 0. Its attempt reads the first word of a variable, writes it, reads what it wrote, and is committed at
// position 1; the row has the word that was written.
#[test]
fn an_attempt_is_committed(rt: HostRuntime) -> Result<(), Fail> {
    let Some((shared, mut zero)) = first_pass(rt.alloc()) else {
        panic!(rt; "no memory")
    };
    let Some(at) = begun(&shared, &mut zero) else {
        panic!(rt; "thread 0 is forked from the start")
    };
    assert_eq!(rt; at, 0);
    let Some((before, after, end, now)) = whole_attempt(rt.alloc(), &shared, &mut zero, 3, 8) else {
        panic!(rt; "nobody else holds a row or the list")
    };
    assert_eq!(rt; (before, after, now), (0, 8, 8));
    assert_eq!(rt; end, TxEnd::Done { at: 1 });
    Ok(())
}
