// The entries that a refused one races with.
ghost use Rattle.std.specs.Prelude.{◌≡◌, length, map};
ghost use Rattle.gl_core.specs.Cells.{at};
ghost use Rattle.gl_causes.specs.Judging.{IsLatest, is_plain, is_race, later, own_number, race_number, races_among, tick_in, writes_to};
ghost use Rattle.gl_causes.specs.Stands.{stand_seen};
ghost use Rattle.gl_model.specs.Entries.{seen};
ghost use Rattle.gl_places.specs.Places.{seen as seen_place};

use crate::learn::ALL;
use crate::refusals::{Refusal, number_on, writes_one};
use gl_model::Entry;
use gl_places::Place;

/// A refused access, its thread, and how far that knows each thread.
#[derive(Clone, Copy)]
pub(crate) struct Asked {
    pub(crate) thread: u8,
    pub(crate) refusal: Refusal,
    pub(crate) known: [u32; ALL],
}

/// Where an access stands, and its number on the variable.
#[derive(Clone, Copy)]
pub(crate) struct Latest {
    pub(crate) place: Place,
    pub(crate) nth: u64,
}

/// The access with the greatest number among those that a refused one races with, and how many those are.
#[derive(Clone, Copy)]
pub(crate) struct Found {
    pub(crate) last: Option<Latest>,
    pub(crate) count: usize,
}

// The number that a performed access drew on the variable for itself, if it did.
fn own_number(entry: &Entry, var: u16) -> Option<u64>
    ensures { result ≡ own_number var (seen entry.now) }
{
    match entry {
        Entry::Plain {
            var: own,
            nth,
            cached,
            raised,
            ..
        } => {
            if *own == var && (!*cached && !*raised) {
                Some(*nth)
            } else {
                None
            }
        }
        Entry::Commit { tx, .. } => number_on(&tx.numbers, var),
        Entry::Sync { .. } | Entry::Abort { .. } | Entry::Trim { .. } | Entry::Over(_) => None,
    }
}

/// Whether an access of the variable writes it.
pub fn writes_to(entry: &Entry, var: u16) -> bool
    ensures { result ≡ writes_to var (seen entry.now) }
{
    match entry {
        Entry::Plain { write, .. } => *write,
        Entry::Commit { tx, .. } | Entry::Abort { tx, .. } => writes_one(&tx.writes, var),
        Entry::Sync { .. } | Entry::Trim { .. } | Entry::Over(_) => false,
    }
}

/// Whether the entry is a plain access.
pub fn is_plain(entry: &Entry) -> bool
    ensures { result ≡ is_plain (seen entry.now) }
{
    matches!(entry, Entry::Plain { .. })
}

// How many events stood in the list when the entry of the block was made.
fn tick_in(block: u64, entry: &Entry) -> u64
    ensures { result ≡ tick_in block (seen entry.now) }
{
    match entry {
        Entry::Plain { .. } => block.saturating_add(1),
        Entry::Sync { .. }
        | Entry::Commit { .. }
        | Entry::Abort { .. }
        | Entry::Trim { .. }
        | Entry::Over(_) => block,
    }
}

/// How far the thread is known.
pub(crate) fn known_of(known: &[u32; ALL], thread: u8) -> u32
    ensures { result ≡ at known.now thread }
{
    match known.get(thread as usize) {
        Some(tick) => *tick,
        None => 0,
    }
}

// Whether an access with this number races with the refused one.
fn is_race(asked: &Asked, place: Place, block: u64, entry: &Entry, nth: u64) -> bool
    ensures { result ≡ is_race asked.now (record { place = seen_place place; block = block; entry = seen entry.now }) nth }
{
    let refusal = &asked.refusal;
    let another = place.thread != asked.thread;
    let writes = writes_to(entry, refusal.var);
    let plain = is_plain(entry);
    let known = known_of(&asked.known, place.thread);
    let unknown = u64::from(known) <= tick_in(block, entry);
    another
        & ((nth < refusal.nth) & ((writes | refusal.write) & ((plain | refusal.plain) & unknown)))
}

// The number on the variable of an entry that races with the refused one.
fn race_number(asked: &Asked, place: Place, block: u64, entry: &Entry) -> Option<u64>
    ensures { result ≡ race_number asked.now (record { place = seen_place place; block = block; entry = seen entry.now }) }
{
    match own_number(entry, asked.refusal.var) {
        Some(nth) => {
            if is_race(asked, place, block, entry, nth) {
                Some(nth)
            } else {
                None
            }
        }
        None => None,
    }
}

// The later one of the last so far and this.
fn later(last: Option<Latest>, place: Place, nth: u64) -> Option<Latest>
    ensures { result ≡ later last (record { place = place; nth = nth }) }
{
    match last {
        Some(before) if nth < before.nth => Some(before),
        _ => Some(Latest { place, nth }),
    }
}

/// The one with the greatest number among the entries that race with a refused one, and how many those are.
pub(crate) fn find(stands: &[(Place, u64, &Entry)], asked: &Asked) -> Found
    ensures last { IsLatest asked.now (map stand_seen stands.now) result.last }
    ensures count { result.count ≡ length (races_among asked.now (map stand_seen stands.now)) }
{
    let mut last = None;
    let mut count = 0;
    for (place, block, entry) in stands {
        if let Some(nth) = race_number(asked, *place, *block, entry) {
            last = later(last, *place, nth);
            count += 1;
        }
    }
    Found { last, count }
}
