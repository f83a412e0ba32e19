// The walk along the flat history.
ghost use Rattle.std.specs.Prelude.{◌≡◌, length, map, MatchOption};
ghost use Rattle.std.specs.List.{AllByRecursion};
ghost use Rattle.gl_model.specs.Entries.{seen};
ghost use Rattle.gl_model.specs.Form.{Form, Listed};
ghost use Rattle.gl_model.specs.Kept.{IsEntryKept};
ghost use Rattle.gl_model.specs.Lists.{lists_of};
ghost use Rattle.gl_model.specs.declared.limits.TheConstants.{VARIABLES};
ghost use Rattle.gl_places.specs.Places.{AreEventPlaces, seen as seen_place};
ghost use Rattle.gl_flat.specs.Walk.{is_event, PassesBlock};
ghost use Rattle.gl_flat.specs.Words.{FlatHolds, IsFirstInFlatOrder};

use crate::table::{agrees, write_into};
use gl_model::{Entry, Record, VARIABLES};
use gl_places::Place;

const WORDS: usize = VARIABLES as usize;

// Is the entry an event?
fn is_event(entry: &Entry) -> bool
    ensures { result ≡ is_event (seen entry.now) }
{
    matches!(entry, Entry::Sync { .. } | Entry::Commit { .. })
}

// The entries of the thread, none where it has no list.
pub(crate) fn list_of(made: &Record, thread: u8) -> &[Entry]
    ensures { map seen result.now ≡ lists_of made.now thread }
{
    made.thread(thread).unwrap_or(&[])
}

// Passes the block whose event is at place `start` of the list. The answer is the place of its first wrong read.
fn pass_block(words: &mut [i64], entries: &[Entry], start: usize) -> Option<usize>
    requires size { length words.old ≡ VARIABLES }
    requires kept { AllByRecursion IsEntryKept (map seen entries.now) }
    ensures { PassesBlock (map seen entries.now) start words.old words.new result }
{
    for i in start..entries.len() {
        let entry = &entries[i];
        if i > start && is_event(entry) {
            return None;
        }
        if !agrees(words, entry) {
            return Some(i);
        }
        write_into(words, entry);
    }
    None
}

// The first wrong read along the flat history, where the events stand at these places.
pub(crate) fn flat_fault(made: &Record, events: &[Place]) -> Option<Place>
    requires form { Form (lists_of made.now) }
    requires listed { Listed (lists_of made.now) }
    requires places { AreEventPlaces (lists_of made.now) (map seen_place events.now) }
    ensures { MatchOption result (FlatHolds (lists_of made.now)) (λ c. IsFirstInFlatOrder (lists_of made.now) (seen_place c)) }
{
    made.keeps();
    let mut words = [0; WORDS];
    for event in events {
        let entries = list_of(made, event.thread);
        if let Some(i) = pass_block(&mut words, entries, event.index as usize) {
            return Some(Place {
                thread: event.thread,
                index: i as u64,
            });
        }
    }
    None
}
