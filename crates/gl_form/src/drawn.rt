ghost use Rattle.std.specs.Prelude.{◌≡◌, ℕ, ◌<◌, length, IfOk, MatchBool, None, Some, slice_set};
ghost use Rattle.gl_model.specs.Entries.{seen};
ghost use Rattle.gl_model.specs.Kept.{IsEntryKept};
ghost use Rattle.gl_model.specs.declared.limits.TheConstants.{TX_VARIABLES, VARIABLES};
ghost use Rattle.gl_form.specs.Passed.{AllGoOn, AreDrawn, IsAbove, IsNotAbove, TxGoesOn, last_on};

use crate::last::is_above;
use gl_model::{Entry, Looks, Numbers, TX_VARIABLES, Tx, VARIABLES};
use std::alloc::{AllocError, Global};

/// The last number that was drawn on each variable.
#[derive(Drop)]
pub(crate) struct Drawn {
    pub last: Vec<Option<u64>>,
    ghost whole: { length last.items ≡ VARIABLES },
}

impl Drawn {
    /// None yet.
    pub(crate) fn new(alloc: Global) -> Result<Drawn, AllocError>
        ensures { IfOk result (λ drawn. (x : ℕ) → last_on drawn.last.items x ≡ None) }
    {
        Ok(Drawn {
            last: vec![in alloc; None; VARIABLES as usize]?,
        })
    }

    // Whether the number is above the last one on its variable; if it is, it is the last there from now on.
    fn draw(&mut self, var: u16, nth: u64) -> bool
        requires { var < VARIABLES }
        ensures { MatchBool result
            (IsAbove (last_on self.old.last.items var) nth × (self.new.last.items ≡ slice_set self.old.last.items var (Some nth)))
            (IsAbove (last_on self.old.last.items var) nth → ⊥) }
    {
        let place = var as usize;
        let last = self.last[place];
        if !is_above(last, nth) {
            return false;
        }
        self.last[place] = Some(nth);
        true
    }

    // Whether the number of each look is above the last one on its variable; if so, it is the last there from now on.
    fn looks_rise(&mut self, looks: &Looks) -> bool
        ensures { MatchBool result
            (AreDrawn (λ a. a.var) (λ a. a.nth) looks.now TX_VARIABLES self.old.last.items self.new.last.items)
            (IsNotAbove (λ a. a.var) (λ a. a.nth) looks.now self.old.last.items) }
    {
        looks.keeps();
        for i in 0..TX_VARIABLES as usize {
            if let Some(look) = looks.at(i) {
                if !self.draw(look.var, look.nth) {
                    return false;
                }
            }
        }
        true
    }

    // The same of the numbers that the end of an attempt drew.
    fn numbers_rise(&mut self, numbers: &Numbers) -> bool
        ensures { MatchBool result
            (AreDrawn (λ a. a.var) (λ a. a.nth) numbers.now TX_VARIABLES self.old.last.items self.new.last.items)
            (IsNotAbove (λ a. a.var) (λ a. a.nth) numbers.now self.old.last.items) }
    {
        numbers.keeps();
        for i in 0..TX_VARIABLES as usize {
            if let Some(number) = numbers.at(i) {
                if !self.draw(number.var, number.nth) {
                    return false;
                }
            }
        }
        true
    }

    // The same of an attempt: its looks come before its own numbers.
    fn attempt_rises(&mut self, tx: &Tx) -> bool
        ensures { TxGoesOn tx.now result self.old.last.items self.new.last.items }
    {
        tx.keeps();
        self.looks_rise(&tx.looks) && self.numbers_rise(&tx.numbers)
    }

    /// Whether the numbers that the entry drew are above the last ones on their variables; if so, they are the last from now on.
    pub(crate) fn rises(&mut self, entry: &Entry) -> bool
        requires { IsEntryKept (seen entry.now) }
        ensures { AllGoOn (seen entry.now) result self.old.last.items self.new.last.items }
    {
        match entry {
            Entry::Plain {
                var,
                nth,
                cached,
                ..
            } => *cached || self.draw(*var, *nth),
            Entry::Commit { tx, .. } | Entry::Abort { tx, .. } => self.attempt_rises(tx),
            Entry::Sync { .. } | Entry::Trim { .. } | Entry::Over(_) => true,
        }
    }
}
