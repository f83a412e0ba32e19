ghost use Rattle.std.specs.Prelude.{◌≡◌, ◌++◌, IfOk, OnOk, map};
ghost use Rattle.gl_model.specs.Entries.{seen};
ghost use Rattle.gl_model.specs.Form.{Listed};
ghost use Rattle.gl_model.specs.Lists.{lists_of};
ghost use Rattle.gl_places.specs.Places.{AreEventPlaces, seen as seen_place};
ghost use Rattle.gl_places.specs.Uses.{positions_of, positions_on, use_seen, uses_from};

use crate::place::Place;
use gl_model::{Entry, Record, THREADS};
use std::alloc::{AllocError, Global};

/// A number that an entry has, and where the entry stands.
#[derive(Clone, Copy, Debug, PartialEq, Eq)]
pub struct Use {
    pub place: Place,
    pub number: u64,
}

// Adds the position of the entry in the list of events, if it is an event.
fn add_position(uses: &mut Vec<Use>, place: Place, entry: &Entry) -> Result<(), AllocError>
    ensures { OnOk result (map use_seen uses.new.items ≡ map use_seen uses.old.items ++ map (λ k. (seen_place place, k)) (positions_on (seen entry.now))) }
{
    match entry {
        Entry::Sync { at, .. } | Entry::Commit { at, .. } => {
            uses.push(Use { place, number: *at })?;
        }
        Entry::Plain { .. } | Entry::Abort { .. } | Entry::Trim { .. } | Entry::Over(_) => {}
    }
    Ok(())
}

// Adds the positions of a thread's list.
fn add_positions(uses: &mut Vec<Use>, thread: u8, list: &[Entry]) -> Result<(), AllocError>
    ensures { OnOk result (map use_seen uses.new.items ≡ map use_seen uses.old.items ++ uses_from positions_on thread 0 (map seen list.now)) }
{
    for (i, entry) in list.iter().enumerate() {
        let index = i as u64;
        add_position(uses, Place { thread, index }, entry)?;
    }
    Ok(())
}

/// The positions of a record's events, by thread and then by place. The only error is want of memory.
pub fn positions(alloc: Global, made: &Record) -> Result<Vec<Use>, AllocError>
    ensures { IfOk result (λ uses. map use_seen uses.items ≡ positions_of made.now) }
{
    made.keeps();
    let mut uses = Vec::new(alloc);
    for thread in 0..THREADS {
        if let Some(list) = made.thread(thread) {
            add_positions(&mut uses, thread, list)?;
        }
    }
    Ok(uses)
}

/// The places of a listed record's events, by position. The only error is want of memory.
pub fn event_places(alloc: Global, made: &Record) -> Result<Vec<Place>, AllocError>
    requires listed { Listed (lists_of made.now) }
    ensures { IfOk result (λ cs. AreEventPlaces (lists_of made.now) (map seen_place cs.items)) }
{
    made.keeps();
    let uses = positions(alloc, made)?;
    let mut places = vec![in alloc; Place {
        thread: 0,
        index: 0
    }; uses.len()]?;
    for event in &uses {
        places[event.number as usize] = event.place;
    }
    Ok(places)
}
