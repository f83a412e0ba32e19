// The rights to repeat accesses, as a thread's own entries give them.
ghost use Rattle.std.specs.Prelude.{◌≡◌, Option, ◌+◌, ◌<◌, ◌≤◌, ◌^◌, IfOk, Some, None, replicate, slice_index_or, slice_set};
ghost use Rattle.gl_model.specs.declared.limits.TheConstants.{VARIABLES};
ghost use Rattle.gl_model.specs.Entries.{seen};
ghost use Rattle.gl_model.specs.Kept.{IsEntryKept};
ghost use Rattle.gl_table.specs.RightOf.{rights_after};

use gl_model::Entry;
use std::alloc::{AllocError, Global};
use std::marker::Model;

const PLACES: usize = 1024;

/// A right on a variable, which is there while its block is the present one: number and kind of the access that may be repeated.
#[derive(Clone, Copy)]
pub struct Right {
    block: u64,
    nth: u64,
    write: bool,
}

/// The right on each variable. An event or a dropped attempt takes all of them, by beginning a block.
#[derive(Drop)]
pub struct Rights {
    places: Vec<Right>,
    block: u64,
}

impl Model for Rights {
    ghost use Rattle.gl_table.specs.RightsView.{RightsView};

    ghost Value = { RightsView };

    ghost use Rattle.gl_table.specs.RightsInside.{rights_view, AreRights};

    ghost view = { rights_view };

    ghost invariant = { AreRights };
}

impl Rights {
    /// No right.
    pub fn none(alloc: Global) -> Result<Rights, AllocError>
        ensures { IfOk result (λ r. r ≡ record { rights = replicate VARIABLES None; block = 1 }) }
    {
        let mut places = Vec::with_capacity(alloc, PLACES)?;
        for _ in 0..PLACES {
            places.push_reserved(Right {
                block: 0,
                nth: 0,
                write: false,
            });
        }
        Ok(Rights { places, block: 1 })
    }

    /// The right on a variable.
    pub fn on(&self, var: u16) -> Option<(u64, bool)>
        requires near { var < VARIABLES }
        ensures { result ≡ slice_index_or self.now.rights var None }
    {
        let right = self.places[var as usize];
        if right.block == self.block {
            return Some((right.nth, right.write));
        }
        None
    }

    // Gives the right on a variable.
    fn give(&mut self, var: u16, nth: u64, write: bool)
        requires near { var < VARIABLES }
        ensures rights { self.new.rights ≡ slice_set self.old.rights var (Some (nth, write)) }
        ensures block { self.new.block ≡ self.old.block }
    {
        self.places[var as usize] = Right {
            block: self.block,
            nth,
            write,
        };
    }

    // Takes all rights.
    fn take(&mut self)
        requires few { self.old.block + 1 < 2 ^ 64 }
        ensures rights { self.new.rights ≡ replicate VARIABLES None }
        ensures block { self.new.block ≡ self.old.block + 1 }
    {
        self.block += 1;
    }

    /// The thread stores the entry.
    pub fn note(&mut self, entry: &Entry)
        requires there { IsEntryKept (seen entry.now) }
        requires few { self.old.block + 1 < 2 ^ 64 }
        ensures rights { self.new.rights ≡ rights_after self.old.rights (seen entry.now) }
        ensures block { self.new.block ≤ self.old.block + 1 }
    {
        match entry {
            Entry::Sync { .. } | Entry::Commit { .. } | Entry::Abort { .. } => self.take(),
            Entry::Plain {
                var,
                nth,
                cached,
                write,
                value: _,
                raised,
            } => {
                if !*cached && !*raised {
                    self.give(*var, *nth, *write);
                }
            }
            Entry::Trim { .. } | Entry::Over(_) => {}
        }
    }
}
