ghost use Rattle.std.specs.Prelude.{◌≡◌, ◌<◌, ◌≤◌, None, IfOk, OnOk, OnErr, []};
ghost use Rattle.gl_cache.specs.Words.{no_words};
ghost use Rattle.gl_rule.specs.Objects.{capacity};
ghost use Rattle.gl_riders.specs.Events.{IsAsk};
ghost use Rattle.gl_riders.specs.Owing.{AreKept, Owns};
ghost use Rattle.gl_riders.specs.Threads.{GoesOnBy, HasOnlyPaid, HasWords, IsAsked, IsRiding, IsSetUp};
ghost use Rattle.gl_riders.specs.Tries.{IfAgain, IfAnswered, IfFull};
ghost use Rattle.gl_riders.specs.Unanswered.{IsNoAccess, IsUnanswered, TableStops};

use crate::thread::{Lent, Run, Thread};
use crate::tried::Tried;
use crate::tries::{try_begin, try_end, try_event, try_plain, try_read, try_write};
use crate::words::{Access, flush};
use gl_shortcut::Cuts;
use gl_vm::Ask;
use std::alloc::AllocError;

// An event, or a step of an attempt: the table answers what the machine asks, or it is tried again.
pub(crate) fn try_ask(
    run: &Run,
    thread: &mut Thread,
    ask: Ask,
    cuts: &Cuts,
    lent: &mut Lent,
) -> Result<Tried, AllocError>
    requires set { IsSetUp run.now }
    requires rides { IsRiding run.now thread.old }
    requires clear { thread.old.pass.own.owed ≡ [] }
    requires asked { IsAsked ask thread.old }
    requires asks { IsAsk ask }
    requires inside { thread.old.txn ≡ None → IsNoAccess ask }
    requires spare { 0 < thread.old.pass.spare }
    requires window { capacity run.now.table.now.key ≤ lent.old.window }
    ensures answered { IfOk result (λ t. IfAnswered t (GoesOnBy run.now ask thread.old thread.new)) }
    ensures kept { IfOk result (λ t. IfAnswered t (λ reply. AreKept thread.new.txn no_words thread.new.pass.own)) }
    ensures again { IfOk result (λ t. IfAgain t (thread.new.pass.own ≡ thread.old.pass.own)) }
    ensures same { IfOk result (λ t. IfAgain t (thread.new.txn ≡ thread.old.txn)) }
    ensures cause { IfOk result (λ t. IfAgain t (TableStops run.now.table.now thread.old.txn ask thread.old.pass thread.new.pass t)) }
    ensures failed { OnErr result (thread.new.pass.own ≡ thread.old.pass.own) }
    ensures machine { thread.new.machine ≡ thread.old.machine }
    ensures words { thread.new.words ≡ thread.old.words }
    ensures window { lent.new.window ≡ lent.old.window }
{
    match ask {
        Ask::Read { var } => Ok(try_read(run, thread, var)),
        Ask::Write { var, value } => Ok(try_write(run, thread, var, value)),
        Ask::TxBegin => Ok(Tried::Answered(try_begin(lent.alloc, run, thread)?)),
        Ask::TxEnd { keep } => Ok(try_end(run, thread, keep, cuts, &mut lent.window)),
        ask => Ok(try_event(run, thread, ask)),
    }
}

// The same, after which no private word is kept where it was answered.
fn try_settled(
    run: &Run,
    thread: &mut Thread,
    ask: Ask,
    cuts: &Cuts,
    lent: &mut Lent,
) -> Result<Tried, AllocError>
    requires set { IsSetUp run.now }
    requires rides { IsRiding run.now thread.old }
    requires kept { HasWords thread.old }
    requires clear { thread.old.pass.own.owed ≡ [] }
    requires asked { IsAsked ask thread.old }
    requires asks { IsAsk ask }
    requires inside { thread.old.txn ≡ None → IsNoAccess ask }
    requires spare { 0 < thread.old.pass.spare }
    requires window { capacity run.now.table.now.key ≤ lent.old.window }
    ensures answered { IfOk result (λ t. IfAnswered t (GoesOnBy run.now ask thread.old thread.new)) }
    ensures kept { OnOk result (HasWords thread.new) }
    ensures again { IfOk result (λ t. IfAgain t (thread.new.pass.own ≡ thread.old.pass.own)) }
    ensures same { IfOk result (λ t. IfAgain t (thread.new.txn ≡ thread.old.txn)) }
    ensures cause { IfOk result (λ t. IfAgain t (TableStops run.now.table.now thread.old.txn ask thread.old.pass thread.new.pass t)) }
    ensures failed { OnErr result (thread.new.pass.own ≡ thread.old.pass.own) }
    ensures machine { thread.new.machine ≡ thread.old.machine }
    ensures window { lent.new.window ≡ lent.old.window }
{
    match try_ask(run, thread, ask, cuts, lent) {
        Ok(Tried::Answered(reply)) => {
            thread.words.clear();
            Ok(Tried::Answered(reply))
        }
        Ok(Tried::Again) => Ok(Tried::Again),
        Ok(Tried::Full) => Ok(Tried::Full),
        Ok(Tried::Unforked) => Ok(Tried::Unforked),
        Err(error) => Err(error),
    }
}

// An ask outside an attempt that is no plain access: what is owed is written back before it is tried.
fn try_flushed(
    run: &Run,
    thread: &mut Thread,
    ask: Ask,
    cuts: &Cuts,
    lent: &mut Lent,
) -> Result<Tried, AllocError>
    requires set { IsSetUp run.now }
    requires rides { IsRiding run.now thread.old }
    requires outside { thread.old.txn ≡ None }
    requires kept { Owns thread.old.words thread.old.pass.own }
    requires asked { IsAsked ask thread.old }
    requires asks { IsAsk ask }
    requires other { IsNoAccess ask }
    requires spare { 0 < thread.old.pass.spare }
    requires window { capacity run.now.table.now.key ≤ lent.old.window }
    ensures answered { IfOk result (λ t. IfAnswered t (GoesOnBy run.now ask thread.old thread.new)) }
    ensures kept { OnOk result (HasWords thread.new) }
    ensures again { IfOk result (λ t. IfAgain t (HasOnlyPaid thread.old thread.new)) }
    ensures same { IfOk result (λ t. IfAgain t (thread.new.txn ≡ thread.old.txn)) }
    ensures whole { IfOk result (λ t. IfFull t (thread.new.pass.own.owed ≡ [])) }
    ensures cause { IfOk result (λ t. IfAgain t (IsUnanswered run.now.table.now thread.old.txn ask thread.old.pass thread.new.pass t)) }
    ensures failed { OnErr result (HasOnlyPaid thread.old thread.new) }
    ensures machine { thread.new.machine ≡ thread.old.machine }
    ensures window { lent.new.window ≡ lent.old.window }
{
    if flush(run.table, &mut thread.pass, &mut thread.words) {
        try_settled(run, thread, ask, cuts, lent)
    } else {
        Ok(Tried::Again)
    }
}

/// What the machine asks: a plain access by the private words or by the table, anything else by the table once nothing is owed. Where it
/// is answered, the pass and the attempt go on by one exchange; else only words that were owed may have been written back.
/// `Full` comes exactly where the ring had no room, `Unforked` where the thread was not forked and no thread was live, and `Again` where
/// the state of the list made the thread wait, or a turn that the ask or an owed word needs was held by another pass.
pub fn try_one(
    run: &Run,
    thread: &mut Thread,
    ask: Ask,
    cuts: &Cuts,
    lent: &mut Lent,
) -> Result<Tried, AllocError>
    requires set { IsSetUp run.now }
    requires rides { IsRiding run.now thread.old }
    requires kept { HasWords thread.old }
    requires asked { IsAsked ask thread.old }
    requires asks { IsAsk ask }
    requires spare { 0 < thread.old.pass.spare }
    requires window { capacity run.now.table.now.key ≤ lent.old.window }
    ensures answered { IfOk result (λ t. IfAnswered t (GoesOnBy run.now ask thread.old thread.new)) }
    ensures kept { OnOk result (HasWords thread.new) }
    ensures again { IfOk result (λ t. IfAgain t (HasOnlyPaid thread.old thread.new)) }
    ensures same { IfOk result (λ t. IfAgain t (thread.new.txn ≡ thread.old.txn)) }
    ensures whole { IfOk result (λ t. IfFull t (thread.new.pass.own.owed ≡ [])) }
    ensures cause { IfOk result (λ t. IfAgain t (IsUnanswered run.now.table.now thread.old.txn ask thread.old.pass thread.new.pass t)) }
    ensures failed { OnErr result (HasOnlyPaid thread.old thread.new) }
    ensures machine { thread.new.machine ≡ thread.old.machine }
    ensures window { lent.new.window ≡ lent.old.window }
{
    if thread.machine.in_tx() {
        return try_settled(run, thread, ask, cuts, lent);
    }
    try_outside(run, thread, ask, cuts, lent)
}

fn try_outside(
    run: &Run,
    thread: &mut Thread,
    ask: Ask,
    cuts: &Cuts,
    lent: &mut Lent,
) -> Result<Tried, AllocError>
    requires set { IsSetUp run.now }
    requires rides { IsRiding run.now thread.old }
    requires outside { thread.old.txn ≡ None }
    requires kept { HasWords thread.old }
    requires asked { IsAsked ask thread.old }
    requires asks { IsAsk ask }
    requires spare { 0 < thread.old.pass.spare }
    requires window { capacity run.now.table.now.key ≤ lent.old.window }
    ensures answered { IfOk result (λ t. IfAnswered t (GoesOnBy run.now ask thread.old thread.new)) }
    ensures kept { OnOk result (HasWords thread.new) }
    ensures again { IfOk result (λ t. IfAgain t (HasOnlyPaid thread.old thread.new)) }
    ensures same { IfOk result (λ t. IfAgain t (thread.new.txn ≡ thread.old.txn)) }
    ensures whole { IfOk result (λ t. IfFull t (thread.new.pass.own.owed ≡ [])) }
    ensures cause { IfOk result (λ t. IfAgain t (IsUnanswered run.now.table.now thread.old.txn ask thread.old.pass thread.new.pass t)) }
    ensures failed { OnErr result (HasOnlyPaid thread.old thread.new) }
    ensures machine { thread.new.machine ≡ thread.old.machine }
    ensures window { lent.new.window ≡ lent.old.window }
{
    match ask {
        Ask::Read { var } => {
            let wanted = Access { var, write: None };
            Ok(try_plain(run, thread, wanted, cuts, &mut lent.window))
        }
        Ask::Write { var, value } => {
            let write = Some(value);
            let wanted = Access { var, write };
            Ok(try_plain(run, thread, wanted, cuts, &mut lent.window))
        }
        _ => try_flushed(run, thread, ask, cuts, lent),
    }
}
