// How far the thread of a refused entry knows each thread.
ghost use Rattle.std.specs.Prelude.{◌≡◌, ◌↔◌, ◌⊎◌, ◌<◌, ℕ, map, max, Some};
ghost use Rattle.gl_causes.specs.Learning.{IsLearned, Knows, commits_before, handed_on, is_lower, is_lower_than};
ghost use Rattle.gl_causes.specs.Stands.{AreOfThreads, stand_seen};
ghost use Rattle.gl_core.specs.Cells.{at, cell};
ghost use Rattle.gl_model.specs.Entries.{seen};
ghost use Rattle.gl_model.specs.declared.limits.TheConstants.{THREADS};
ghost use Rattle.gl_places.specs.Places.{seen as seen_place};

use crate::refusals::number_on;
use gl_model::{Entry, Numbers, THREADS, TX_VARIABLES};
use gl_places::Place;

// How many threads a clock knows.
pub(crate) const ALL: usize = THREADS as usize;

// A clock that knows what both know.
fn join(into: &mut [u32; ALL], from: &[u32; ALL])
    ensures { (u : ℕ) → at into.new u ≡ max (at into.old u) (at from.now u) }
{
    for u in 0..ALL {
        into[u] = into[u].max(from[u]);
    }
}

// Whether there is a number, below this one.
fn is_lower_than(nth: u64, own: Option<u64>) -> bool
    ensures { result ≡ is_lower_than nth own }
{
    match own {
        Some(own) => own < nth,
        None => false,
    }
}

// Whether the first have a lower number on some variable of both.
fn is_lower(earlier: &Numbers, later: &Numbers) -> bool
    ensures { result ≡ is_lower earlier.now later.now }
{
    later.keeps();
    for i in 0..TX_VARIABLES as usize {
        let Some(number) = later.at(i) else {
            return false;
        };
        if is_lower_than(number.nth, number_on(earlier, number.var)) {
            return true;
        }
    }
    false
}

// Whether the entry is a commit that has a lower number on some variable of both.
fn commits_before(later: &Numbers, entry: &Entry) -> bool
    ensures { result ≡ commits_before later.now (seen entry.now) }
{
    match entry {
        Entry::Commit { tx, .. } => is_lower(&tx.numbers, later),
        Entry::Sync { .. }
        | Entry::Plain { .. }
        | Entry::Abort { .. }
        | Entry::Trim { .. }
        | Entry::Over(_) => false,
    }
}

// The clock of a block.
fn clock_at(rows: &[[u32; ALL]], block: u64) -> [u32; ALL]
    ensures { (u : ℕ) → at result u ≡ cell rows.now block u }
{
    match rows.get(block as usize) {
        Some(row) => *row,
        None => [0; ALL],
    }
}

// What a commit hands on, where these are the clocks of the blocks.
fn handed_on(rows: &[[u32; ALL]], place: Place, block: u64, entry: &Entry) -> [u32; ALL]
    requires { place.thread < THREADS }
    ensures { (u : ℕ) → at result u ≡ handed_on rows.now (record { place = seen_place place; block = block; entry = seen entry.now }) u }
{
    let own = place.thread as usize;
    let mut clock = clock_at(rows, block);
    clock[own] = clock[own].saturating_sub(1);
    clock
}

// A refused attempt with these numbers learns what the commits hand on that are before it on one of its variables.
fn learn(
    rows: &[[u32; ALL]],
    stands: &[(Place, u64, &Entry)],
    later: &Numbers,
    known: &mut [u32; ALL],
)
    requires { AreOfThreads (map stand_seen stands.now) }
    ensures { (u n : ℕ) → (n < at known.new u) ↔ ((n < at known.old u) ⊎ IsLearned rows.now (map stand_seen stands.now) later.now u n) }
{
    for (place, block, entry) in stands {
        if commits_before(later, entry) {
            join(known, &handed_on(rows, *place, *block, entry));
        }
    }
}

/// How far the thread of a refused entry knows each thread, where these are the clocks of the blocks, and the entry stands in this block.
pub(crate) fn known_at(
    rows: &[[u32; ALL]],
    stands: &[(Place, u64, &Entry)],
    block: u64,
    entry: &Entry,
) -> [u32; ALL]
    requires { AreOfThreads (map stand_seen stands.now) }
    ensures { Knows rows.now (map stand_seen stands.now) block (seen entry.now) result }
{
    let mut known = clock_at(rows, block);
    match entry {
        Entry::Abort { tx, .. } => learn(rows, stands, &tx.numbers, &mut known),
        Entry::Sync { .. }
        | Entry::Commit { .. }
        | Entry::Plain { .. }
        | Entry::Trim { .. }
        | Entry::Over(_) => {}
    }
    known
}
