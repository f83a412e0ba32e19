ghost use Rattle.std.specs.Prelude.{◌≡◌, ◌≢◌, ◌<◌, ◌≤◌, Option, Some, None, IfOk, OnOk, []};
ghost use Rattle.gl_cache.specs.Words.{no_words};
ghost use Rattle.gl_rule.specs.Objects.{capacity};
ghost use Rattle.gl_bytecode.specs.declared.ask.Ask.TheVariants.{Read, Write, TxBegin, TxEnd as EndAsk};
ghost use Rattle.gl_riders.specs.Events.{IsEvent};
ghost use Rattle.gl_riders.specs.Owing.{AreKept};
ghost use Rattle.gl_riders.specs.Threads.{GoesOnBy, HasWords, IsAsked, IsRiding, IsSetUp};
ghost use Rattle.gl_riders.specs.Tries.{IfAgain, IfAnswered, IfFull, access_ask, access_reply, end_reply};
ghost use Rattle.gl_riders.specs.Unanswered.{AccessStops, EventStops, TableStops, stopped, waited};

use crate::events::{event, reply_of};
use crate::thread::{Run, Thread};
use crate::tried::Tried;
use crate::words::{Access, plain};
use gl_bytecode::{RACE, TX_TOO_LARGE};
use gl_events::Stop;
use gl_rows::{Seen, Window};
use gl_shortcut::Cuts;
use gl_txn::{TxEnd, TxStop, TxWait, Txn};
use gl_vm::{Ask, Reply};
use std::alloc::{AllocError, Global};

// An event call that stopped is tried again.
fn stopped_by(stop: Stop) -> Tried
    ensures { result ≡ stopped stop }
{
    match stop {
        Stop::RingFull { .. } => Tried::Full,
        Stop::NotForked { live } => {
            if live == 0 {
                Tried::Unforked
            } else {
                Tried::Again
            }
        }
        Stop::Busy { .. } | Stop::Blocked { .. } | Stop::NotEnded { .. } => Tried::Again,
    }
}

// An event.
pub(crate) fn try_event(run: &Run, thread: &mut Thread, ask: Ask) -> Tried
    requires set { IsSetUp run.now }
    requires rides { IsRiding run.now thread.old }
    requires asked { IsAsked ask thread.old }
    requires event { IsEvent ask }
    requires spare { 0 < thread.old.pass.spare }
    requires clear { thread.old.pass.own.owed ≡ [] }
    ensures answered { IfAnswered result (GoesOnBy run.now ask thread.old thread.new) }
    ensures kept { IfAnswered result (λ reply. AreKept thread.new.txn no_words thread.new.pass.own) }
    ensures again { IfAgain result (thread.new.pass.own ≡ thread.old.pass.own) }
    ensures cause { IfAgain result (EventStops run.now.table.now ask thread.old.pass thread.new.pass result) }
    ensures machine { thread.new.machine ≡ thread.old.machine }
    ensures words { thread.new.words ≡ thread.old.words }
    ensures txn { thread.new.txn ≡ thread.old.txn }
{
    match event(run.table, &mut thread.pass, run.program, ask) {
        Ok(done) => Tried::Answered(reply_of(ask, done)),
        Err(stop) => stopped_by(stop),
    }
}

// A plain access.
pub(crate) fn try_plain(
    run: &Run,
    thread: &mut Thread,
    wanted: Access,
    cuts: &Cuts,
    window: &mut Window,
) -> Tried
    requires rides { IsRiding run.now thread.old }
    requires kept { HasWords thread.old }
    requires asked { IsAsked (access_ask wanted.var wanted.write) thread.old }
    requires outside { thread.old.txn ≡ None }
    requires spare { 0 < thread.old.pass.spare }
    requires window { capacity run.now.table.now.key ≤ window.old }
    ensures answered { IfAnswered result (GoesOnBy run.now (access_ask wanted.var wanted.write) thread.old thread.new) }
    ensures kept { HasWords thread.new }
    ensures again { IfAgain result (thread.new.pass.own ≡ thread.old.pass.own) }
    ensures whole { IfFull result ⊥ }
    ensures cause { IfAgain result (AccessStops (access_ask wanted.var wanted.write) thread.old.pass thread.new.pass result) }
    ensures machine { thread.new.machine ≡ thread.old.machine }
    ensures txn { thread.new.txn ≡ thread.old.txn }
    ensures window { window.new ≡ window.old }
{
    match plain(run.table, thread, wanted, cuts, window) {
        Ok(seen) => Tried::Answered(access_reply(wanted.write, seen)),
        Err(_) => Tried::Again,
    }
}

fn access_reply(write: Option<i64>, seen: Seen) -> Reply
    ensures { result ≡ access_reply write seen }
{
    match seen {
        Seen::Raised { .. } => Reply::Raise(RACE),
        Seen::Value(value) => match write {
            None => Reply::Value(value),
            Some(_) => Reply::Go,
        },
    }
}

fn end_reply(end: TxEnd) -> Reply
    ensures { result ≡ end_reply end }
{
    match end {
        TxEnd::Done { .. } => Reply::Go,
        TxEnd::Raised { .. } => Reply::Raise(RACE),
        TxEnd::Changed { .. } => Reply::Retry,
    }
}

// The beginning of an attempt.
pub(crate) fn try_begin(alloc: Global, run: &Run, thread: &mut Thread) -> Result<Reply, AllocError>
    requires rides { IsRiding run.now thread.old }
    requires asked { IsAsked TxBegin thread.old }
    requires clear { thread.old.pass.own.owed ≡ [] }
    ensures answered { IfOk result (GoesOnBy run.now TxBegin thread.old thread.new) }
    ensures kept { OnOk result (AreKept thread.new.txn no_words thread.new.pass.own) }
    ensures machine { thread.new.machine ≡ thread.old.machine }
    ensures words { thread.new.words ≡ thread.old.words }
    ensures pass { thread.new.pass ≡ thread.old.pass }
{
    let _run = run;
    let begun = Txn::begin(alloc)?;
    thread.txn = Some(begun);
    Ok(Reply::Go)
}

// A read inside an attempt.
pub(crate) fn try_read(run: &Run, thread: &mut Thread, var: u16) -> Tried
    requires rides { IsRiding run.now thread.old }
    requires asked { IsAsked (Read var) thread.old }
    requires inside { thread.old.txn ≢ None }
    requires spare { 0 < thread.old.pass.spare }
    requires clear { thread.old.pass.own.owed ≡ [] }
    ensures answered { IfAnswered result (GoesOnBy run.now (Read var) thread.old thread.new) }
    ensures kept { IfAnswered result (λ reply. AreKept thread.new.txn no_words thread.new.pass.own) }
    ensures again { IfAgain result (thread.new.pass.own ≡ thread.old.pass.own) }
    ensures same { IfAgain result (thread.new.txn ≡ thread.old.txn) }
    ensures cause { IfAgain result (TableStops run.now.table.now thread.old.txn (Read var) thread.old.pass thread.new.pass result) }
    ensures machine { thread.new.machine ≡ thread.old.machine }
    ensures words { thread.new.words ≡ thread.old.words }
{
    match &mut thread.txn {
        Some(attempt) => match attempt.read(run.table, &mut thread.pass, var) {
            Ok(value) => Tried::Answered(Reply::Value(value)),
            Err(TxStop::TooLarge) => Tried::Answered(Reply::Raise(TX_TOO_LARGE)),
            Err(TxStop::Busy { .. }) => Tried::Again,
        },
        None => unreachable!(),
    }
}

// A write inside an attempt.
pub(crate) fn try_write(run: &Run, thread: &mut Thread, var: u16, value: i64) -> Tried
    requires rides { IsRiding run.now thread.old }
    requires asked { IsAsked (Write var value) thread.old }
    requires inside { thread.old.txn ≢ None }
    requires clear { thread.old.pass.own.owed ≡ [] }
    ensures answered { IfAnswered result (GoesOnBy run.now (Write var value) thread.old thread.new) }
    ensures kept { IfAnswered result (λ reply. AreKept thread.new.txn no_words thread.new.pass.own) }
    ensures always { IfAgain result ⊥ }
    ensures machine { thread.new.machine ≡ thread.old.machine }
    ensures words { thread.new.words ≡ thread.old.words }
    ensures pass { thread.new.pass ≡ thread.old.pass }
{
    let _run = run;
    match &mut thread.txn {
        Some(attempt) => match attempt.write(var, value) {
            Ok(()) => Tried::Answered(Reply::Go),
            Err(TxStop::TooLarge) => Tried::Answered(Reply::Raise(TX_TOO_LARGE)),
            Err(TxStop::Busy { .. }) => unreachable!(),
        },
        None => unreachable!(),
    }
}

// What the end's wait comes to.
fn waited_for(wait: TxWait) -> Tried
    ensures { result ≡ waited wait }
{
    match wait {
        TxWait::Busy { .. } => Tried::Again,
        TxWait::RingFull { .. } => Tried::Full,
    }
}

// The end of an attempt.
pub(crate) fn try_end(
    run: &Run,
    thread: &mut Thread,
    keep: bool,
    cuts: &Cuts,
    window: &mut Window,
) -> Tried
    requires rides { IsRiding run.now thread.old }
    requires asked { IsAsked (EndAsk keep) thread.old }
    requires spare { 0 < thread.old.pass.spare }
    requires clear { thread.old.pass.own.owed ≡ [] }
    requires window { capacity run.now.table.now.key ≤ window.old }
    ensures answered { IfAnswered result (GoesOnBy run.now (EndAsk keep) thread.old thread.new) }
    ensures kept { IfAnswered result (λ reply. AreKept thread.new.txn no_words thread.new.pass.own) }
    ensures again { IfAgain result (thread.new.pass.own ≡ thread.old.pass.own) }
    ensures same { IfAgain result (thread.new.txn ≡ thread.old.txn) }
    ensures cause { IfAgain result (TableStops run.now.table.now thread.old.txn (EndAsk keep) thread.old.pass thread.new.pass result) }
    ensures machine { thread.new.machine ≡ thread.old.machine }
    ensures words { thread.new.words ≡ thread.old.words }
    ensures window { window.new ≡ window.old }
{
    match thread.txn.take() {
        Some(attempt) => match attempt.commit(run.table, &mut thread.pass, keep, cuts, window) {
            Ok(end) => Tried::Answered(end_reply(end)),
            Err((attempt, wait)) => {
                thread.txn = Some(attempt);
                waited_for(wait)
            }
        },
        None => unreachable!(),
    }
}
