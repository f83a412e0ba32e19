// Which entries were refused, and on which variable.
ghost use Rattle.std.specs.Prelude.{◌≡◌};
ghost use Rattle.gl_causes.specs.Judging.{attempt_where, number_on, refusal_of};
ghost use Rattle.gl_raised.specs.Accesses.{writes_one};
ghost use Rattle.gl_model.specs.Entries.{seen};

use gl_model::{Entry, Numbers, Pairs, Tx, Why};

/// A refused access: on which variable, and its number there.
#[derive(Clone, Copy)]
pub(crate) struct Refusal {
    pub(crate) var: u16,
    pub(crate) nth: u64,
    pub(crate) plain: bool,
    pub(crate) write: bool,
}

/// The number on the variable, if there is one.
pub(crate) fn number_on(numbers: &Numbers, var: u16) -> Option<u64>
    ensures { result ≡ number_on numbers.now var }
{
    match numbers.of(var) {
        Some(number) => Some(number.nth),
        None => None,
    }
}

/// Whether a transaction writes the variable.
pub(crate) fn writes_one(writes: &Pairs, var: u16) -> bool
    ensures { result ≡ writes_one writes.now var }
{
    writes.of(var).is_some()
}

// The refusal of an attempt for this variable.
fn refused_attempt(tx: &Tx, var: u16) -> Option<Refusal>
    ensures { result ≡ attempt_where tx.now var (number_on tx.now.numbers var) }
{
    match number_on(&tx.numbers, var) {
        Some(nth) => Some(Refusal {
            var,
            nth,
            plain: false,
            write: writes_one(&tx.writes, var),
        }),
        None => None,
    }
}

/// On which variable the entry was refused, if it was.
pub(crate) fn refusal_of(entry: &Entry) -> Option<Refusal>
    ensures { result ≡ refusal_of (seen entry.now) }
{
    match entry {
        Entry::Plain {
            var,
            nth,
            write,
            raised,
            ..
        } => {
            if *raised {
                Some(Refusal {
                    var: *var,
                    nth: *nth,
                    plain: true,
                    write: *write,
                })
            } else {
                None
            }
        }
        Entry::Abort { tx, why } => match why {
            Why::Raised { var } => refused_attempt(tx, *var),
            Why::Changed { .. } => None,
        },
        Entry::Sync { .. } | Entry::Commit { .. } | Entry::Trim { .. } | Entry::Over(_) => None,
    }
}
