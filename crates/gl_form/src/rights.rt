ghost use Rattle.std.specs.Prelude.{◌≡◌, length};
ghost use Rattle.gl_model.specs.declared.limits.TheConstants.{VARIABLES};

use gl_model::{Entry, VARIABLES};
use std::alloc::{AllocError, Global};

/// A numbered performed entry: its place in the list, its number, and whether it writes.
#[derive(Clone, Copy)]
pub(crate) struct Right {
    pub index: usize,
    pub nth: u64,
    pub write: bool,
}

/// Where the present block begins, and the last right on each variable, which may be of an earlier block.
#[derive(Drop)]
pub(crate) struct Rights {
    pub block: usize,
    pub latest: Vec<Option<Right>>,
    ghost whole: { length latest.items ≡ VARIABLES },
}

impl Rights {
    ghost use Rattle.std.specs.Prelude.{◌≡◌, ℕ, ◌+◌, ◌<◌, ◌^◌, IfOk, MatchBool, None};
    ghost use Rattle.gl_model.specs.Entries.{seen};
    ghost use Rattle.gl_model.specs.Kept.{IsEntryKept};
    ghost use Rattle.gl_form.specs.Passed.{IsEnough, RightsGoOn, right_on};

    /// None yet.
    pub(crate) fn new(alloc: Global) -> Result<Rights, AllocError>
        ensures { IfOk result (λ rights. (rights.block ≡ 0) × ((x : ℕ) → right_on rights.latest.items x ≡ None)) }
    {
        Ok(Rights {
            block: 0,
            latest: vec![in alloc; None; VARIABLES as usize]?,
        })
    }

    // Whether the last right on the variable is of this block, has this number, and is of a write where one is asked for.
    fn allows(&self, var: u16, nth: u64, write: bool) -> bool
        requires { var < VARIABLES }
        ensures { MatchBool result
            (IsEnough self.now.block (right_on self.now.latest.items var) nth write)
            (IsEnough self.now.block (right_on self.now.latest.items var) nth write → ⊥) }
    {
        let latest = self.latest[var as usize];
        match latest {
            Some(right) => {
                self.block <= right.index && right.nth == nth && (right.write || !write)
            }
            None => false,
        }
    }

    /// Whether the entry at this place of the list, if it is a cached one, has the right to it. From now on the rights are those after it.
    pub(crate) fn allow(&mut self, index: usize, entry: &Entry) -> bool
        requires kept { IsEntryKept (seen entry.now) }
        requires within { index + 1 < 2 ^ 64 }
        ensures { RightsGoOn (seen entry.now) index result self.old.block self.old.latest.items self.new.block self.new.latest.items }
    {
        match entry {
            Entry::Sync { .. } | Entry::Commit { .. } => {
                self.block = index + 1;
                true
            }
            Entry::Plain {
                var,
                nth,
                cached,
                write,
                raised,
                ..
            } => {
                if *raised {
                    return true;
                }
                if *cached {
                    return self.allows(*var, *nth, *write);
                }
                self.latest[*var as usize] = Some(Right {
                    index,
                    nth: *nth,
                    write: *write,
                });
                true
            }
            Entry::Abort { .. } | Entry::Trim { .. } | Entry::Over(_) => true,
        }
    }
}
