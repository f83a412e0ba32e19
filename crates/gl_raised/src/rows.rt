// The clock of each block of a record.
ghost use Rattle.std.specs.Prelude.{◌≡◌, ℕ, ◌<◌, ◌+◌, ◌^◌, List, IfOk, IfSome, IsSome, OnOk, MatchOption, map, slice_get, Some, None};
ghost use Rattle.gl_core.specs.TablesView.{AreClocksOf, IsSized};
ghost use Rattle.gl_lines.specs.Traced.{with_stamp};
ghost use Rattle.gl_model.specs.Entries.{seen};
ghost use Rattle.gl_model.specs.Form.{EntryForm, Form};
ghost use Rattle.gl_model.specs.Kept.{IsEntryKept};
ghost use Rattle.gl_model.specs.Lists.{lists_of};
ghost use Rattle.gl_model.specs.Records.{IsEventAt, IsEventList, event_of};
ghost use Rattle.gl_model.specs.declared.event.Event.{Event};
ghost use Rattle.gl_model.specs.declared.event.Stamp.{Stamp};
ghost use Rattle.gl_model.specs.declared.limits.TheConstants.{THREADS};
ghost use Rattle.gl_places.specs.Places.{AreEventPlaces, seen as seen_place};
ghost use Rattle.gl_raised.specs.Rows.{AreBlockClocks, IsClockOfNext};

use gl_core::Tables;
use gl_model::{Entry, Numbers, Record, THREADS, TX_VARIABLES, VarSet};
use gl_places::Place;
use std::alloc::{AllocError, Global};

/// The threads as a length.
pub(crate) const ALL: usize = THREADS as usize;

// The variables that the numbers name.
fn named(numbers: &Numbers) -> VarSet
    ensures { result ≡ map (λ n. n.var) numbers.now }
{
    numbers.keeps();
    let mut all = VarSet::empty();
    for i in 0..TX_VARIABLES as usize {
        let Some(number) = numbers.at(i) else {
            return all;
        };
        match all.insert(number.var) {
            Ok(()) => {}
            Err(_) => unreachable!(),
        }
    }
    all
}

// The clocks after one event more, which is the entry.
fn take_entry(tables: &mut Tables, thread: u8, entry: &Entry)
    requires sized { IsSized tables.old }
    requires thread { thread < THREADS }
    requires kept { IsEntryKept (seen entry.now) }
    requires form { EntryForm thread (seen entry.now) }
    requires room { tables.old.next + 2 < 2 ^ 32 }
    ensures sized { IsSized tables.new }
    ensures clocks { (h : List Stamp) (event : Event) → event_of (seen entry.now) ≡ Some event → AreClocksOf h tables.old → AreClocksOf (with_stamp h thread event) tables.new }
{
    let mut ticks = 0;
    match entry {
        Entry::Sync { act, .. } => tables.take_act(thread, *act, &mut ticks),
        Entry::Commit { tx, .. } => {
            let variables = named(&tx.numbers);
            let acquired = tables.acquired_all(thread, &variables, &mut ticks);
            tables.take_commit(thread, &variables, &acquired, &mut ticks);
        }
        Entry::Plain { .. } | Entry::Abort { .. } | Entry::Trim { .. } | Entry::Over(_) => {}
    }
}

// The entry at the place.
fn entry_at<'a>(made: &'a Record, place: &Place) -> Option<&'a Entry>
    ensures thread { IsSome result → place.now.thread < THREADS }
    ensures entry { MatchOption result (slice_get (lists_of made.now place.now.thread) place.now.index ≡ None) (λ e. slice_get (lists_of made.now place.now.thread) place.now.index ≡ Some (seen e.now)) }
    ensures kept { IfSome result (λ e. IsEntryKept (seen e.now)) }
{
    made.keeps();
    match made.thread(place.thread) {
        Some(list) => list.get(place.index as usize),
        None => None,
    }
}

// The clock of an event's thread after it, where one more can be counted.
fn next_clock(tables: &mut Tables, made: &Record, place: &Place) -> Result<[u32; ALL], AllocError>
    requires sized { IsSized tables.old }
    requires form { Form (lists_of made.now) }
    requires event { (p : ℕ) × ((s : Stamp) × IsEventAt (lists_of made.now) (seen_place place.now) p s) }
    ensures sized { OnOk result (IsSized tables.new) }
    ensures clock { IfOk result (λ clock. (h : List Stamp) (p : ℕ) (s : Stamp) → IsEventAt (lists_of made.now) (seen_place place.now) p s → AreClocksOf h tables.old → IsClockOfNext h s clock tables.new) }
{
    if !tables.has_room() {
        return Err(AllocError);
    }
    match entry_at(made, place) {
        Some(entry) => {
            take_entry(tables, place.thread, entry);
            Ok(*tables.known(place.thread))
        }
        None => unreachable!(),
    }
}

/// The clock of the thread of each event after it, by position: how far the block that this event begins knows each thread. The places
/// are those of the events, in their order. The only error is want of memory.
pub fn block_clocks(
    alloc: Global,
    made: &Record,
    places: &[Place],
) -> Result<Vec<[u32; ALL]>, AllocError>
    requires form { Form (lists_of made.now) }
    requires places { AreEventPlaces (lists_of made.now) (map seen_place places.now) }
    ensures { IfOk result (λ rows. (h : List Stamp) → IsEventList h (lists_of made.now) → AreBlockClocks h rows.items) }
{
    let mut tables = Tables::new(alloc)?;
    let mut rows = Vec::new(alloc);
    for place in places {
        rows.push(next_clock(&mut tables, made, place)?)?;
    }
    Ok(rows)
}
