// Looks against their own numbers.
ghost use Rattle.std.specs.Prelude.{map, IfOk, IsSorted, MatchBool, MatchOption};
ghost use Rattle.gl_model.specs.Entries.{seen, Abort as AbortEntry};
ghost use Rattle.gl_model.specs.Flat.{LooksReadRight, ReadsRight};
ghost use Rattle.gl_model.specs.Lists.{lists_of};
ghost use Rattle.gl_model.specs.Records.{Lists};
ghost use Rattle.gl_places.specs.Places.{Before, IsFirstBy, seen as seen_place};
ghost use Rattle.gl_flat.specs.Below.{AreWrites, FoundIsRight, IsFirstLook};
ghost use Rattle.gl_flat.specs.Sorted.{written_cmp};
ghost use Rattle.gl_flat.specs.Words.{LookFailsAt, LooksHold};

use crate::walk::list_of;
use crate::writes::{Written, is_word_below, writes_of};
use gl_model::{Entry, Looks, Numbers, Record, THREADS, TX_VARIABLES, Tx, Why};
use gl_places::Place;
use std::alloc::{AllocError, Global};

const MOST_PARTS: usize = TX_VARIABLES as usize;

// Is each look the word below its number?
fn looks_are_right(writes: &[Written], looks: &Looks) -> bool
    requires { IsSorted written_cmp writes.now }
    ensures { (R : Lists) → AreWrites R writes.now → MatchBool result (LooksReadRight R looks.now) (LooksReadRight R looks.now → ⊥) }
{
    looks.keeps();
    for i in 0..MOST_PARTS {
        let Some(look) = looks.at(i) else {
            return true;
        };
        if !is_word_below(writes, look.var, look.nth, look.value) {
            return false;
        }
    }
    true
}

// Is what was found the word below the number that the end of the attempt drew on the variable?
fn found_is_right(writes: &[Written], numbers: &Numbers, var: u16, found: i64) -> bool
    requires { IsSorted written_cmp writes.now }
    ensures { (R : Lists) → AreWrites R writes.now → MatchBool result (FoundIsRight R numbers.now var found) (FoundIsRight R numbers.now var found → ⊥) }
{
    numbers.keeps();
    match numbers.of(var) {
        Some(number) => is_word_below(writes, var, number.nth, found),
        None => true,
    }
}

// Is each look right, and what was found?
fn change_is_right(writes: &[Written], tx: &Tx, var: u16, found: i64) -> bool
    requires { IsSorted written_cmp writes.now }
    ensures { (R : Lists) → AreWrites R writes.now → MatchBool result (LooksReadRight R tx.now.looks × FoundIsRight R tx.now.numbers var found) (LooksReadRight R tx.now.looks × FoundIsRight R tx.now.numbers var found → ⊥) }
{
    if !looks_are_right(writes, &tx.looks) {
        return false;
    }
    found_is_right(writes, &tx.numbers, var, found)
}

// Are the looks of an attempt that was dropped right, and what it found?
fn abort_is_right(writes: &[Written], tx: &Tx, why: Why) -> bool
    requires { IsSorted written_cmp writes.now }
    ensures { (R : Lists) → AreWrites R writes.now → MatchBool result (ReadsRight R (AbortEntry tx.now why)) (ReadsRight R (AbortEntry tx.now why) → ⊥) }
{
    match why {
        Why::Changed { var, found, .. } => change_is_right(writes, tx, var, found),
        Why::Raised { .. } => looks_are_right(writes, &tx.looks),
    }
}

// Are the looks of the entry right, and what it found?
fn reads_right(writes: &[Written], entry: &Entry) -> bool
    requires { IsSorted written_cmp writes.now }
    ensures { (R : Lists) → AreWrites R writes.now → MatchBool result (ReadsRight R (seen entry.now)) (ReadsRight R (seen entry.now) → ⊥) }
{
    match entry {
        Entry::Commit { tx, .. } => looks_are_right(writes, &tx.looks),
        Entry::Abort { tx, why } => abort_is_right(writes, tx, *why),
        Entry::Plain { .. } | Entry::Sync { .. } | Entry::Trim { .. } | Entry::Over(_) => true,
    }
}

// The first place of the list whose looks are not right.
fn list_fault(writes: &[Written], entries: &[Entry]) -> Option<usize>
    requires { IsSorted written_cmp writes.now }
    ensures { (R : Lists) → AreWrites R writes.now → IsFirstLook R (map seen entries.now) result }
{
    for (i, entry) in entries.iter().enumerate() {
        if !reads_right(writes, entry) {
            return Some(i);
        }
    }
    None
}

// The first place of the record, by thread and place, whose looks are not right.
pub(crate) fn look_fault(alloc: Global, made: &Record) -> Result<Option<Place>, AllocError>
    ensures { IfOk result (λ found. MatchOption found (LooksHold (lists_of made.now)) (λ c. IsFirstBy Before (LookFailsAt (lists_of made.now)) (seen_place c))) }
{
    made.keeps();
    let writes = writes_of(alloc, made)?;
    for thread in 0..THREADS {
        if let Some(i) = list_fault(&writes, list_of(made, thread)) {
            return Ok(Some(Place {
                thread,
                index: i as u64,
            }));
        }
    }
    Ok(None)
}
