ghost use Rattle.std.specs.Prelude.{◌≡◌, ◌<◌, ◌≤◌, ◌||◌, ℕ, ℤ, Option, Some, None, IfOk, MatchBool, map, nat_lt, true, false};
ghost use Rattle.gl_model.specs.Entries.{seen};
ghost use Rattle.gl_model.specs.Form.{IsTrim};
ghost use Rattle.gl_model.specs.declared.limits.TheConstants.{TX_VARIABLES, VARIABLES};
ghost use Rattle.gl_bytecode.specs.Fits.{Fits, StartsRight};
ghost use Rattle.gl_bytecode.specs.Forced.{word_ahead};
ghost use Rattle.gl_bytecode.specs.Machine.{ask_of, takes};
ghost use Rattle.gl_bytecode.specs.Runs.{Made, is_its_end, known_word, knows, looks_after, outset, replied, reply_in, reply_of_abort, reply_of_commit, told_one, touched, word_of, writes_after};
ghost use Rattle.gl_bytecode.specs.declared.ask.Ask.TheVariants.{Over as AskOver, Read, Write};
ghost use Rattle.gl_bytecode.specs.declared.ask.Reply.TheVariants.{Go, Value};
ghost use Rattle.gl_vm.specs.Standing.{site_of};
ghost use Rattle.gl_follow.specs.Following.{BeginsRight, quiet_for, quiet_inside, quiet_outside, quiet_read, quiet_write};
ghost use Rattle.gl_follow.specs.Steps.{CanGo, GoesQuietly, HasRoomFor, IsNoAnswer, Passes, Refuses, StaysSilent};

use crate::answers::{by_act, by_plain, word_ahead};
use crate::words::Words;
use gl_bytecode::{Ask, Program, RACE, Reply, TX_TOO_LARGE};
use gl_model::{Ending, Entry, Tx, Why};
use gl_vm::{Machine, Site};
use std::alloc::{AllocError, Global};
use std::marker::Model;

/// A thread's machine that is driven by the thread's list, and what its running attempt looked at and wrote so far.
#[derive(Drop)]
pub struct Replay {
    machine: Machine,
    words: Words,
}

impl Model for Replay {
    ghost use Rattle.gl_bytecode.specs.Runs.{Progress};

    ghost Value = { Progress };

    ghost view = { λ r. record { config = r.machine; looks = r.words.looks; writes = r.words.writes } };
}

impl Replay {
    /// A machine that was asked nothing yet.
    pub fn new(
        alloc: Global,
        program: &Program,
        thread: u8,
        steps: u32,
    ) -> Result<Replay, AllocError>
        ensures outset { IfOk result (λ r. r ≡ outset program.now thread steps) }
        ensures fits { IfOk result (λ r. Fits program.now r.config) }
    {
        Ok(Replay {
            machine: Machine::new(alloc, program, thread, steps)?,
            words: Words::empty(),
        })
    }

    // Is nothing asked any more, and did the thread end so?
    pub(crate) fn is_over(&self, ending: Ending) -> bool
        ensures { MatchBool result (ask_of self.now.config.stage ≡ AskOver ending) (ask_of self.now.config.stage ≡ AskOver ending → ⊥) }
    {
        match self.machine.asked() {
            Ask::Over(last) => last == ending,
            _ => false,
        }
    }

    /// The instruction that has asked and waits for the answer, or that has ended the attempt that runs, if it is one.
    pub fn site(&self) -> Option<Site>
        ensures { result ≡ site_of self.now.config }
    {
        self.machine.site()
    }

    /// Tells a caller's proof that the attempt touched at most `TX_VARIABLES` variables.
    pub fn keeps(&self)
        ensures { touched self.now ≤ TX_VARIABLES }
    {
        self.words.keeps();
    }

    /// Goes on by the reply that leaves no entry, where what was asked takes one; these entries are still ahead.
    pub fn goes_quietly(&mut self, program: &Program, list: &[Entry]) -> bool
        requires can { CanGo program.now self.old }
        ensures moved { MatchBool result (GoesQuietly program.now self.old (map seen list.now) self.new) (StaysSilent self.old (map seen list.now) self.new) }
        ensures can { CanGo program.now self.new }
    {
        self.keeps();
        match self.quiet(list) {
            Some(reply) => {
                self.tell(program, reply);
                true
            }
            None => false,
        }
    }

    /// Passes over the entry where it is a Trim, and goes on by it where it answers what was asked.
    pub fn passes(&mut self, program: &Program, entry: &Entry) -> bool
        requires can { CanGo program.now self.old }
        requires right { BeginsRight program.now (seen entry.now) }
        ensures moved { MatchBool result (Passes program.now self.old (seen entry.now) self.new) (Refuses program.now self.old (seen entry.now) self.new) }
        ensures can { CanGo program.now self.new }
    {
        if is_trim(entry) {
            return true;
        }
        self.goes_by(program, entry)
    }

    // Goes on by the entry, where it answers what was asked.
    fn goes_by(&mut self, program: &Program, entry: &Entry) -> bool
        requires can { CanGo program.now self.old }
        requires right { BeginsRight program.now (seen entry.now) }
        ensures moved { MatchBool result (told_one program.now (Made (seen entry.now)) self.old ≡ Some self.new) (IsNoAnswer program.now self.old (seen entry.now) self.new) }
        ensures can { CanGo program.now self.new }
    {
        match self.by_entry(entry) {
            Some(reply) => {
                if !self.machine.takes(&reply) {
                    return false;
                }
                self.tell(program, reply);
                true
            }
            None => false,
        }
    }

    // The machine takes the reply, and the attempt's words are noted.
    fn tell(&mut self, program: &Program, reply: Reply)
        requires can { CanGo program.now self.old }
        requires taken { takes self.old.config reply ≡ true }
        requires start { StartsRight program.now reply }
        requires room { HasRoomFor self.old (ask_of self.old.config.stage) reply }
        ensures told { replied program.now self.old (Some reply) ≡ Some self.new }
        ensures can { CanGo program.now self.new }
    {
        let ask = self.machine.asked();
        self.note(ask, reply);
        self.machine.step(program, reply);
    }

    // Notes what the attempt looked at or wrote by the reply, and that its end ends it.
    fn note(&mut self, ask: Ask, reply: Reply)
        requires read { (x : ℕ) → ask ≡ Read x → x < VARIABLES }
        requires write { (x : ℕ) (a : ℤ) → ask ≡ Write x a → x < VARIABLES }
        requires room { HasRoomFor self.old ask reply }
        ensures { self.new ≡ record self.old { looks = looks_after self.old ask reply; writes = writes_after self.old ask reply } }
    {
        match ask {
            Ask::Read { var } => self.note_look(var, reply),
            Ask::Write { var, value } => self.note_write(var, value, reply),
            Ask::TxEnd { .. } => self.words = Words::empty(),
            _ => {}
        }
    }

    // A read inside an attempt is a look, where its word was not known.
    fn note_look(&mut self, var: u16, reply: Reply)
        requires there { var < VARIABLES }
        requires room { HasRoomFor self.old (Read var) reply }
        ensures { self.new ≡ record self.old { looks = looks_after self.old (Read var) reply } }
    {
        if let Reply::Value(value) = reply {
            if self.machine.in_tx() && !self.words.knows(var) {
                self.words.look(var, value);
            }
        }
    }

    // A write inside an attempt is kept, where it is not refused.
    fn note_write(&mut self, var: u16, value: i64, reply: Reply)
        requires there { var < VARIABLES }
        requires room { HasRoomFor self.old (Write var value) reply }
        ensures { self.new ≡ record self.old { writes = writes_after self.old (Write var value) reply } }
    {
        if let Reply::Go = reply {
            if self.machine.in_tx() {
                self.words.write(var, value);
            }
        }
    }

    // The reply that leaves no entry, where what was asked takes one and these entries are still ahead.
    fn quiet(&self, list: &[Entry]) -> Option<Reply>
        ensures { result ≡ quiet_for self.now (map seen list.now) (ask_of self.now.config.stage) }
    {
        let ask = self.machine.asked();
        if self.machine.in_tx() {
            self.quiet_inside(list, ask)
        } else {
            quiet_outside(ask)
        }
    }

    // The same inside an attempt.
    fn quiet_inside(&self, list: &[Entry], ask: Ask) -> Option<Reply>
        ensures { result ≡ quiet_inside self.now (map seen list.now) ask }
    {
        match ask {
            Ask::Go => Some(Reply::Go),
            Ask::Read { var } => Some(self.read(list, var)),
            Ask::Write { var, .. } => Some(self.write(var)),
            _ => None,
        }
    }

    // The answer to a read inside an attempt.
    fn read(&self, list: &[Entry], var: u16) -> Reply
        ensures { result ≡ quiet_read (known_word (word_of self.now.writes var) (word_of self.now.looks var)) (nat_lt (touched self.now) TX_VARIABLES) (word_ahead (map seen list.now) var) }
    {
        match self.words.known(var) {
            Some(value) => Reply::Value(value),
            None => {
                if self.words.has_room() {
                    Reply::Value(word_ahead(list, var).unwrap_or(0))
                } else {
                    Reply::Raise(TX_TOO_LARGE)
                }
            }
        }
    }

    // The answer to a write inside an attempt.
    fn write(&self, var: u16) -> Reply
        ensures { result ≡ quiet_write (knows self.now var || nat_lt (touched self.now) TX_VARIABLES) }
    {
        if self.words.knows(var) || self.words.has_room() {
            Reply::Go
        } else {
            Reply::Raise(TX_TOO_LARGE)
        }
    }

    // The reply of the entry to what was asked, if it answers it.
    fn by_entry(&self, entry: &Entry) -> Option<Reply>
        ensures { result ≡ reply_in self.now (ask_of self.now.config.stage) (seen entry.now) }
    {
        let ask = self.machine.asked();
        match entry {
            Entry::Sync { act, value, .. } => by_act(ask, *act, *value),
            Entry::Plain {
                var,
                write,
                value,
                raised,
                ..
            } => {
                if self.machine.in_tx() {
                    None
                } else {
                    by_plain(ask, *var, *write, *value, *raised)
                }
            }
            Entry::Commit { tx, .. } => self.by_commit(ask, tx),
            Entry::Abort { tx, why } => self.by_abort(ask, tx, *why),
            Entry::Trim { .. } | Entry::Over(_) => None,
        }
    }

    // The reply of a commit.
    fn by_commit(&self, ask: Ask, tx: &Tx) -> Option<Reply>
        ensures { result ≡ reply_of_commit self.now ask tx.now }
    {
        match ask {
            Ask::TxEnd { keep } => {
                if self.ends_so(keep, tx) {
                    Some(Reply::Go)
                } else {
                    None
                }
            }
            _ => None,
        }
    }

    // The reply of an abort.
    fn by_abort(&self, ask: Ask, tx: &Tx, why: Why) -> Option<Reply>
        ensures { result ≡ reply_of_abort self.now ask tx.now why }
    {
        match ask {
            Ask::TxEnd { keep } => {
                if !self.ends_so(keep, tx) {
                    return None;
                }
                match why {
                    Why::Changed { .. } => Some(Reply::Retry),
                    Why::Raised { .. } => Some(Reply::Raise(RACE)),
                }
            }
            _ => None,
        }
    }

    // Are these the looks of the attempt, and these its writes, where they are kept?
    fn ends_so(&self, keep: bool, tx: &Tx) -> bool
        ensures { result ≡ is_its_end self.now keep tx.now }
    {
        if !self.words.looked(&tx.looks) {
            return false;
        }
        if keep {
            return self.words.wrote(&tx.writes);
        }
        match tx.writes.at(0) {
            Some(_) => false,
            None => true,
        }
    }
}

// The reply that leaves no entry, outside attempts.
fn quiet_outside(ask: Ask) -> Option<Reply>
    ensures { result ≡ quiet_outside ask }
{
    match ask {
        Ask::Go | Ask::TxBegin => Some(Reply::Go),
        _ => None,
    }
}

// Is the entry a note of how far the list was trimmed?
fn is_trim(entry: &Entry) -> bool
    ensures { MatchBool result (IsTrim (seen entry.now)) (IsTrim (seen entry.now) → ⊥) }
{
    match entry {
        Entry::Trim { .. } => true,
        Entry::Sync { .. }
        | Entry::Commit { .. }
        | Entry::Plain { .. }
        | Entry::Abort { .. }
        | Entry::Over(_) => false,
    }
}
