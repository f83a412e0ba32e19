ghost use Rattle.std.specs.Prelude.{◌≡◌, ◌<◌, ◌≤◌, IfOk, OnOk, OnErr, []};
ghost use Rattle.gl_rule.specs.Objects.{capacity};
ghost use Rattle.gl_threads.specs.Aboard.{IfHome, IfOn, IsFinished};
ghost use Rattle.gl_riders.specs.Events.{IsAsk};
ghost use Rattle.gl_riders.specs.Riding.{Rides};
ghost use Rattle.gl_riders.specs.Threads.{GoesOnBy, HasOnlyPaid, HasWords, IsAsked, IsRiding, IsSetUp};
ghost use Rattle.gl_riders.specs.Tries.{IfAgain, IfAnswered, IfFull};

use crate::aids::Aids;
use crate::gate::{Gate, kind_of};
use gl_riders::{Lent, Run, Thread, Tried, try_one};
use gl_rows::sweep;
use gl_table::Pass;
use gl_txn::Txn;
use gl_vm::{Ask, Machine, Reply};
use std::alloc::AllocError;

// Where a turn led a thread.
#[derive(Clone, Copy)]
pub(crate) enum Went {
    On,
    Nowhere,
    Home,
}

// A try of the ask, with the gate before it, and behind it where it was answered.
fn try_gated<G: Gate>(
    run: &Run,
    thread: &mut Thread,
    ask: Ask,
    aids: &Aids<G>,
    lent: &mut Lent,
) -> Result<Tried, AllocError>
    requires set { IsSetUp run.now }
    requires rides { IsRiding run.now thread.old }
    requires kept { HasWords thread.old }
    requires window { capacity run.now.table.now.key ≤ lent.old.window }
    requires asked { IsAsked ask thread.old }
    requires asks { IsAsk ask }
    requires spare { 0 < thread.old.pass.spare }
    ensures answered { IfOk result (λ t. IfAnswered t (GoesOnBy run.now ask thread.old thread.new)) }
    ensures kept { OnOk result (HasWords thread.new) }
    ensures again { IfOk result (λ t. IfAgain t (HasOnlyPaid thread.old thread.new)) }
    ensures same { IfOk result (λ t. IfAgain t (thread.new.txn ≡ thread.old.txn)) }
    ensures whole { IfOk result (λ t. IfFull t (thread.new.pass.own.owed ≡ [])) }
    ensures failed { OnErr result (HasOnlyPaid thread.old thread.new) }
    ensures machine { thread.new.machine ≡ thread.old.machine }
    ensures window { lent.new.window ≡ lent.old.window }
{
    let id = thread.pass.id();
    let kind = kind_of(ask, thread.machine.in_tx());
    if let Some(kind) = kind {
        aids.gate.before(id, kind);
    }
    let tried = try_one(run, thread, ask, aids.cuts, lent)?;
    tell_after(aids.gate, id, kind, &tried);
    Ok(tried)
}

fn tell_after<G: Gate>(gate: &G, thread: u8, kind: Option<u8>, tried: &Tried) {
    if let (Some(kind), Tried::Answered(_)) = (kind, tried) {
        gate.after(thread, kind);
    }
}

// The machine goes on by the table's answer to its ask, or waits for its next turn.
fn turn<G: Gate>(
    run: &Run,
    thread: &mut Thread,
    ask: Ask,
    aids: &Aids<G>,
    lent: &mut Lent,
) -> Result<Went, AllocError>
    requires set { IsSetUp run.now }
    requires rides { IsRiding run.now thread.old }
    requires kept { HasWords thread.old }
    requires window { capacity run.now.table.now.key ≤ lent.old.window }
    requires asked { IsAsked ask thread.old }
    requires asks { IsAsk ask }
    requires spare { 0 < thread.old.pass.spare }
    ensures on { IfOk result (λ w. IfOn w (IsRiding run.now thread.new)) }
    ensures kept { IfOk result (λ w. IfOn w (HasWords thread.new)) }
    ensures home { IfOk result (λ w. IfHome w (IsFinished run.now.program.now thread.old.machine.limit run.now.table.now.id thread.new.pass)) }
    ensures limit { thread.new.machine.limit ≡ thread.old.machine.limit }
    ensures id { thread.new.pass.own.id ≡ thread.old.pass.own.id }
    ensures table { thread.new.pass.own.table ≡ thread.old.pass.own.table }
    ensures window { lent.new.window ≡ lent.old.window }
{
    match try_gated(run, thread, ask, aids, lent)? {
        Tried::Answered(reply) => {
            thread.machine.step(run.program, reply);
            Ok(Went::On)
        }
        Tried::Again => Ok(Went::Nowhere),
        Tried::Full => {
            thread.pass.reserve(1)?;
            sweep(run.table, &mut thread.pass, &mut lent.window);
            Ok(Went::On)
        }
        Tried::Unforked => Ok(if thread.pass.is_done() {
            Went::Home
        } else {
            Went::Nowhere
        }),
    }
}

// So many instructions in a row that ask nothing.
const BURST: usize = 64;

// Goes on while the machine asks nothing, so many times at most.
fn go_on(run: &Run, machine: &mut Machine, pass: &Pass, txn: &Option<Txn>)
    requires rides { Rides run.now.program.now run.now.table.now.id machine.old pass.now.own txn.now }
    ensures rides { Rides run.now.program.now run.now.table.now.id machine.new pass.now.own txn.now }
    ensures limit { machine.new.limit ≡ machine.old.limit }
{
    let _pass = pass;
    let _txn = txn;
    for k in 0..BURST {
        let _k = k;
        match machine.asked() {
            Ask::Go => machine.step(run.program, Reply::Go),
            _ => return,
        };
    }
}

// The machine goes on to its next ask, which is answered or waits for its next turn.
pub(crate) fn advance<G: Gate>(
    run: &Run,
    thread: &mut Thread,
    aids: &Aids<G>,
    lent: &mut Lent,
) -> Result<Went, AllocError>
    requires set { IsSetUp run.now }
    requires rides { IsRiding run.now thread.old }
    requires kept { HasWords thread.old }
    requires window { capacity run.now.table.now.key ≤ lent.old.window }
    ensures on { IfOk result (λ w. IfOn w (IsRiding run.now thread.new)) }
    ensures kept { IfOk result (λ w. IfOn w (HasWords thread.new)) }
    ensures home { IfOk result (λ w. IfHome w (IsFinished run.now.program.now thread.old.machine.limit run.now.table.now.id thread.new.pass)) }
    ensures limit { thread.new.machine.limit ≡ thread.old.machine.limit }
    ensures id { thread.new.pass.own.id ≡ thread.old.pass.own.id }
    ensures table { thread.new.pass.own.table ≡ thread.old.pass.own.table }
    ensures window { lent.new.window ≡ lent.old.window }
{
    thread.pass.reserve(1)?;
    go_on(run, &mut thread.machine, &thread.pass, &thread.txn);
    match thread.machine.asked() {
        Ask::Go => Ok(Went::On),
        Ask::Over(ending) => {
            thread.pass.over(ending);
            Ok(Went::Home)
        }
        ask => turn(run, thread, ask, aids, lent),
    }
}
