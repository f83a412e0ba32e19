ghost use Rattle.std.specs.Prelude.{◌≡◌, MatchBool, Some};
ghost use Rattle.gl_model.specs.Entries.{seen};
ghost use Rattle.gl_model.specs.Records.{position_of};
ghost use Rattle.gl_form.specs.Passed.{GoesOn, IsAbove};
ghost use Rattle.gl_form.specs.Rules.{HasLow, HasPosition};

use gl_model::Entry;

/// Whether the number is above the last one, if there is one.
pub(crate) fn is_above(last: Option<u64>, number: u64) -> bool
    ensures { MatchBool result (IsAbove last number) (IsAbove last number → ⊥) }
{
    match last {
        Some(before) => before < number,
        None => true,
    }
}

// Whether the number is above the last one; if it is, it is the last from now on.
fn rises(last: &mut Option<u64>, number: u64) -> bool
    ensures { MatchBool result (IsAbove last.old number × (last.new ≡ Some number)) (IsAbove last.old number → ⊥) }
{
    if !is_above(*last, number) {
        return false;
    }
    *last = Some(number);
    true
}

// The position of the entry, if it is an event.
fn position(entry: &Entry) -> Option<u64>
    ensures { result ≡ position_of (seen entry.now) }
{
    match entry {
        Entry::Sync { at, .. } | Entry::Commit { at, .. } => Some(*at),
        Entry::Plain { .. } | Entry::Abort { .. } | Entry::Trim { .. } | Entry::Over(_) => None,
    }
}

/// Whether the position of the entry, if it is an event, is above the last one.
pub(crate) fn position_rises(last: &mut Option<u64>, entry: &Entry) -> bool
    ensures { GoesOn HasPosition (seen entry.now) result last.old last.new }
{
    match position(entry) {
        Some(at) => rises(last, at),
        None => true,
    }
}

/// Whether the low of the entry, if it is a Trim, is above the last one.
pub(crate) fn low_rises(last: &mut Option<u64>, entry: &Entry) -> bool
    ensures { GoesOn HasLow (seen entry.now) result last.old last.new }
{
    match entry {
        Entry::Trim { low } => rises(last, *low),
        Entry::Sync { .. }
        | Entry::Commit { .. }
        | Entry::Plain { .. }
        | Entry::Abort { .. }
        | Entry::Over(_) => true,
    }
}
