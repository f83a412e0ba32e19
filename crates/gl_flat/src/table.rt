// The words along the flat history, in a table by variable.
ghost use Rattle.std.specs.Prelude.{◌≡◌, ℕ, ◌<◌, length, true, false, MatchBool};
ghost use Rattle.gl_model.specs.Entries.{seen};
ghost use Rattle.gl_model.specs.Flat.{LooksAgree, stored};
ghost use Rattle.gl_model.specs.Kept.{IsEntryKept};
ghost use Rattle.gl_model.specs.declared.limits.TheConstants.{VARIABLES};
ghost use Rattle.gl_flat.specs.Walk.{AgreesWith, DiffersFrom, LooksDiffer, word_in, words_past};

use gl_model::{Entry, Looks, Pairs, TX_VARIABLES};

const MOST_PARTS: usize = TX_VARIABLES as usize;

// Does each look have its word?
fn looks_agree(words: &[i64], looks: &Looks) -> bool
    requires { length words.now ≡ VARIABLES }
    ensures { MatchBool result (LooksAgree (word_in words.now) looks.now) (LooksDiffer (word_in words.now) looks.now) }
{
    looks.keeps();
    for i in 0..MOST_PARTS {
        let Some(look) = looks.at(i) else {
            return true;
        };
        if words[look.var as usize] != look.value {
            return false;
        }
    }
    true
}

// Stores what was written.
fn store(words: &mut [i64], writes: &Pairs)
    requires { length words.old ≡ VARIABLES }
    ensures { (x : ℕ) → x < VARIABLES → word_in words.new x ≡ stored (word_in words.old) writes.now x }
{
    writes.keeps();
    for i in 0..MOST_PARTS {
        let Some(write) = writes.at(i) else {
            return;
        };
        words[write.var as usize] = write.value;
    }
}

// Does each read of the entry have its word?
pub(crate) fn agrees(words: &[i64], entry: &Entry) -> bool
    requires size { length words.now ≡ VARIABLES }
    requires kept { IsEntryKept (seen entry.now) }
    ensures { MatchBool result (AgreesWith (word_in words.now) (seen entry.now)) (DiffersFrom (word_in words.now) (seen entry.now)) }
{
    match entry {
        Entry::Plain {
            var,
            write: false,
            value,
            raised: false,
            ..
        } => words[*var as usize] == *value,
        Entry::Commit { tx, .. } => looks_agree(words, &tx.looks),
        Entry::Plain { .. }
        | Entry::Sync { .. }
        | Entry::Abort { .. }
        | Entry::Trim { .. }
        | Entry::Over(_) => true,
    }
}

// Stores what the entry writes.
pub(crate) fn write_into(words: &mut [i64], entry: &Entry)
    requires size { length words.old ≡ VARIABLES }
    requires kept { IsEntryKept (seen entry.now) }
    ensures { (x : ℕ) → x < VARIABLES → word_in words.new x ≡ words_past (word_in words.old) (seen entry.now) x }
{
    match entry {
        Entry::Plain {
            var,
            write: true,
            value,
            raised: false,
            ..
        } => words[*var as usize] = *value,
        Entry::Commit { tx, .. } => store(words, &tx.writes),
        Entry::Plain { .. }
        | Entry::Sync { .. }
        | Entry::Abort { .. }
        | Entry::Trim { .. }
        | Entry::Over(_) => {}
    }
}
