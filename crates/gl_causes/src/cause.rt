// Why an entry was refused.
ghost use Rattle.std.specs.Prelude.{IfOk, length, map};
ghost use Rattle.gl_causes.specs.Causes.{AreCauses};
ghost use Rattle.gl_causes.specs.Finding.{AreFound, HasRace, HaveRaces, IsAsked, IsFound};
ghost use Rattle.gl_causes.specs.Stands.{AreOfThreads, stand_seen};
ghost use Rattle.gl_model.specs.Form.{Form, Listed, Numbered};
ghost use Rattle.gl_model.specs.HappensBefore.{Races};
ghost use Rattle.gl_model.specs.Lists.{lists_of};
ghost use Rattle.gl_places.specs.Places.{AreEventPlaces, seen as seen_place};
ghost use Rattle.gl_raised.specs.RaceFaults.{AreSteps};

use crate::leading::last_known;
use crate::learn::{ALL, known_at};
use crate::races::{Asked, find, known_of};
use crate::refusals::{Refusal, refusal_of};
use crate::stands::stands_of;
use gl_model::{Entry, Record};
use gl_places::{Place, event_places};
use gl_raised::block_clocks;
use std::alloc::{AllocError, Global};

/// Why an entry of a record was refused.
#[derive(Clone, Copy, Debug, PartialEq, Eq)]
pub struct Cause {
    /// Where the entry stands: a plain access with `raised`, or an attempt that was dropped as `Raised`.
    pub at: Place,
    /// The variable on which it was refused.
    pub var: u16,
    /// What it races with: of the performed accesses of the variable by other threads that conflict with it, come before it there and do
    /// not happen before it, that with the greatest number.
    pub other: Place,
    /// How many other such accesses there are. A cached repeat is not counted.
    pub others: usize,
    /// The last entry of the other access's thread that happens before the refused one, if there is one. It is an event.
    pub leading: Option<Place>,
}

// The cause of the refused entry at the place.
fn cause_of(made: &Record, stands: &[(Place, u64, &Entry)], asked: &Asked, at: Place) -> Cause
    requires { HasRace asked.now (map stand_seen stands.now) }
    ensures { IsFound (lists_of made.now) asked.now (map stand_seen stands.now) at result }
{
    let found = find(stands, asked);
    let last = found.last.unwrap();
    let thread = last.place.thread;
    Cause {
        at,
        var: asked.refusal.var,
        other: last.place,
        others: found.count - 1,
        leading: last_known(made, thread, known_of(&asked.known, thread)),
    }
}

// What is asked of the refused entry that stands there.
fn asked_of(
    rows: &[[u32; ALL]],
    stands: &[(Place, u64, &Entry)],
    stand: &(Place, u64, &Entry),
    refusal: Refusal,
) -> Asked
    requires { AreOfThreads (map stand_seen stands.now) }
    ensures { IsAsked rows.now (map stand_seen stands.now) (stand_seen stand.now) refusal result }
{
    Asked {
        thread: stand.0.thread,
        refusal,
        known: known_at(rows, stands, stand.1, stand.2),
    }
}

// The causes of the refused entries, where these are the clocks of the blocks.
fn causes_among(
    alloc: Global,
    made: &Record,
    rows: &[[u32; ALL]],
    stands: &[(Place, u64, &Entry)],
) -> Result<Vec<Cause>, AllocError>
    requires threads { AreOfThreads (map stand_seen stands.now) }
    requires races { HaveRaces rows.now (map stand_seen stands.now) }
    ensures { IfOk result (λ causes. AreFound (lists_of made.now) rows.now (map stand_seen stands.now) (length stands.now) causes.items) }
{
    let mut causes = Vec::new(alloc);
    for stand in stands {
        if let Some(refusal) = refusal_of(stand.2) {
            let asked = asked_of(rows, stands, stand, refusal);
            causes.push(cause_of(made, stands, &asked, stand.0))?;
        }
    }
    Ok(causes)
}

// The same, where these are the places of the record's events, by position.
fn causes_by_places(
    alloc: Global,
    made: &Record,
    places: &[Place],
) -> Result<Vec<Cause>, AllocError>
    requires form { Form (lists_of made.now) }
    requires numbered { Numbered (lists_of made.now) }
    requires steps { AreSteps (lists_of made.now) }
    requires races { Races (lists_of made.now) }
    requires places { AreEventPlaces (lists_of made.now) (map seen_place places.now) }
    ensures { IfOk result (λ causes. AreCauses (lists_of made.now) causes.items) }
{
    made.keeps();
    let rows = block_clocks(alloc, made, places)?;
    let stands = stands_of(alloc, made)?;
    let causes = causes_among(alloc, made, &rows, &stands)?;
    Ok(causes)
}

/// Why the refused entries of a record were refused, one for each, by thread and then by place. For each event there is one clock of 64
/// bytes, and for each entry 32 bytes. For each refused entry each entry of the record is looked at, twice for an attempt. The only error
/// is want of memory, for which too many events to be counted also stand.
pub fn causes(alloc: Global, made: &Record) -> Result<Vec<Cause>, AllocError>
    requires form { Form (lists_of made.now) }
    requires listed { Listed (lists_of made.now) }
    requires numbered { Numbered (lists_of made.now) }
    requires steps { AreSteps (lists_of made.now) }
    requires races { Races (lists_of made.now) }
    ensures { IfOk result (λ causes. AreCauses (lists_of made.now) causes.items) }
{
    let places = event_places(alloc, made)?;
    causes_by_places(alloc, made, &places)
}
