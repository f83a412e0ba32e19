// The last of what a thread did that leads to a refused entry of another one.
ghost use Rattle.std.specs.Prelude.{◌≡◌, map};
ghost use Rattle.gl_causes.specs.Leading.{IsLastPassed, IsPlacePassed, is_passed, passes};
ghost use Rattle.gl_draws.specs.Ties.{or_else};
ghost use Rattle.gl_model.specs.Entries.{seen};
ghost use Rattle.gl_model.specs.Lists.{lists_of};
ghost use Rattle.gl_model.specs.Records.{position_of};

use gl_model::{Entry, Record};
use gl_places::Place;

// The position of the entry in the list of events, if it is one.
fn position_of(entry: &Entry) -> Option<u64>
    ensures { result ≡ position_of (seen entry.now) }
{
    match entry {
        Entry::Sync { at, .. } | Entry::Commit { at, .. } => Some(*at),
        Entry::Plain { .. } | Entry::Abort { .. } | Entry::Trim { .. } | Entry::Over(_) => None,
    }
}

// Whether a clock that has come so far has passed the block.
fn passes(block: Option<u64>, known: u32) -> bool
    ensures { result ≡ passes block known }
{
    match block {
        Some(block) => block < u64::from(known.saturating_sub(1)),
        None => false,
    }
}

// Whether the entry is an event, and the clock has passed the block before it.
fn is_passed(block: Option<u64>, known: u32, entry: &Entry) -> bool
    ensures { result ≡ is_passed block known (seen entry.now) }
{
    let event = position_of(entry).is_some();
    let passed = passes(block, known);
    event & passed
}

// The block behind the entry.
fn block_behind(block: Option<u64>, entry: &Entry) -> Option<u64>
    ensures { result ≡ or_else (position_of (seen entry.now)) block }
{
    match position_of(entry) {
        Some(at) => Some(at),
        None => block,
    }
}

// The last event before which the clock has passed the thread's block: so it has what that event hands on.
fn last_passed(list: &[Entry], known: u32) -> Option<usize>
    ensures { IsLastPassed (map seen list.now) known result }
{
    let mut last = None;
    let mut block = None;
    for (index, entry) in list.iter().enumerate() {
        if is_passed(block, known, entry) {
            last = Some(index);
        }
        block = block_behind(block, entry);
    }
    last
}

/// The place of the last event of the thread that is known to who knows so much of the thread.
pub(crate) fn last_known(made: &Record, thread: u8, known: u32) -> Option<Place>
    ensures { IsPlacePassed (lists_of made.now thread) thread known result }
{
    let list = made.thread(thread)?;
    match last_passed(list, known) {
        Some(index) => Some(Place {
            thread,
            index: index as u64,
        }),
        None => None,
    }
}
