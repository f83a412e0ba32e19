ghost use Rattle.std.specs.Prelude.{◌≡◌, ◌<◌, ◌≤◌, []};
ghost use Rattle.gl_segments.specs.Rings.{IsRing};
ghost use Rattle.gl_model.specs.declared.limits.TheConstants.{VARIABLES};

use crate::{Layout, Pass, Shared};
use gl_model::{Classes, Inputs};
use gl_segments::Ring;
use std::alloc::Global;
use std::test::Fail;
use std::thread;
use std::thread::Threads;

const ROUNDS: u32 = 1000;

fn layout(alloc: Global) -> Layout
    ensures ring { IsRing result.ring }
    ensures main { result.main ≡ 0 }
    ensures starts { result.starts.items ≡ [] }
{
    Layout {
        classes: Classes::empty(alloc),
        inputs: Inputs::empty(alloc),
        main: 0,
        starts: Vec::new(alloc),
        ring: Ring::standard(),
    }
}

// How many threads are live by the list's state; None where another pass holds it.
fn live(shared: &Shared, pass: &mut Pass) -> Option<usize>
    requires table { pass.old.own.table ≡ shared.now.id }
    requires held { pass.old.own.held ≡ [] }
    ensures table { pass.new.own.table ≡ pass.old.own.table }
    ensures held { pass.new.own.held ≡ [] }
{
    let Ok(state) = shared.take_list(pass) else {
        return None;
    };
    let live = state.live();
    shared.put_list(pass, state, false);
    Some(live)
}

// The word of a row, which goes back as it was.
fn word(shared: &Shared, pass: &mut Pass, var: u16) -> Option<i64>
    requires table { pass.old.own.table ≡ shared.now.id }
    requires near { var < VARIABLES }
    requires held { pass.old.own.held ≡ [] }
    ensures table { pass.new.own.table ≡ pass.old.own.table }
    ensures held { pass.new.own.held ≡ [] }
{
    let Ok(kept) = shared.take_row(pass, var) else {
        return None;
    };
    let word = kept.row().value;
    shared.put_row(pass, var, kept);
    Some(word)
}

// A table with its last pass, as it begins.
#[test]
fn a_table_begins(rt: HostRuntime) -> Result<(), Fail> {
    let Ok((shared, mut passes)) = Shared::new(rt.alloc(), layout(rt.alloc())) else {
        panic!(rt; "no memory")
    };
    assert!(rt; passes.len() == 16);
    let Some(mut pass) = passes.pop() else {
        panic!(rt; "no pass")
    };
    assert!(rt; pass.id() == 15);
    assert!(rt; live(&shared, &mut pass) == Some(1));
    assert!(rt; live(&shared, &mut pass) == Some(1));
    assert!(rt; word(&shared, &mut pass, 1023) == Some(0));
    assert!(rt; shared.tail(&mut pass) == 0);
    assert!(rt; shared.low(&mut pass) == 0);
    assert!(rt; !shared.stopped(&mut pass));
    shared.set_stop(&mut pass);
    assert!(rt; shared.stopped(&mut pass));
    assert!(rt; !pass.is_done());
    Ok(())
}

// How often the list was taken and put back, in so many tries.
fn rounds(shared: &Shared, pass: &mut Pass, tries: u32) -> u32
    requires table { pass.old.own.table ≡ shared.now.id }
    requires held { pass.old.own.held ≡ [] }
    ensures table { pass.new.own.table ≡ pass.old.own.table }
    ensures held { pass.new.own.held ≡ [] }
    ensures few { result ≤ tries }
{
    let mut taken = 0;
    for _ in 0..tries {
        if live(shared, pass).is_some() {
            taken += 1;
        }
    }
    taken
}

// The same of two passes, each in a thread of its own.
fn both<R: Threads + Sync>(rt: &R, shared: &Shared, mut one: Pass, mut other: Pass) -> (u32, u32)
    requires table { (one.own.table ≡ shared.now.id) × (other.own.table ≡ shared.now.id) }
    requires held { (one.own.held ≡ []) × (other.own.held ≡ []) }
{
    thread::join(
        rt,
        move || -> u32
            requires { (one.own.table ≡ shared.now.id) × (one.own.held ≡ []) }
        { rounds(shared, &mut one, ROUNDS) },
        move || -> u32
            requires { (other.own.table ≡ shared.now.id) × (other.own.held ≡ []) }
        { rounds(shared, &mut other, ROUNDS) },
    )
}

// Two threads try 1,000 times each to take the list: who tries first finds it free, and in the end it is at home.
#[test]
fn two_threads_take_turns(rt: HostRuntime) -> Result<(), Fail> {
    let Ok((shared, mut passes)) = Shared::new(rt.alloc(), layout(rt.alloc())) else {
        panic!(rt; "no memory")
    };
    let (Some(one), Some(other), Some(mut third)) = (passes.pop(), passes.pop(), passes.pop())
    else {
        panic!(rt; "no pass")
    };
    let (first, second) = both(&rt, &shared, one, other);
    assert!(rt; first > 0 || second > 0);
    assert!(rt; live(&shared, &mut third) == Some(1));
    Ok(())
}
