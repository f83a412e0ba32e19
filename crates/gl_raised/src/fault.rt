// The first place of a record where the race law fails.
ghost use Rattle.std.specs.Prelude.{◌≡◌, ℕ, IfOk, OnOk, MatchOption, length, map, slice_get, Some};
ghost use Rattle.gl_core.specs.Cells.{at, cell};
ghost use Rattle.gl_model.specs.Form.{Form, Listed, Numbered};
ghost use Rattle.gl_model.specs.HappensBefore.{Races};
ghost use Rattle.gl_model.specs.Lists.{lists_of};
ghost use Rattle.gl_places.specs.Places.{AreEventPlaces, Before, IsFirstBy, seen};
ghost use Rattle.gl_raised.specs.RaceFaults.{AreSteps, RaceFailsAt};
ghost use Rattle.gl_raised.specs.Sorted.{AreSorted, IsFirstOther};
ghost use Rattle.gl_raised.specs.declared.access.Claim.{Claim as AClaim};

use crate::access::{Access, Claim};
use crate::gather::gather;
use crate::judge::least_races;
use crate::learn::{learn, no_clock};
use crate::rows::{ALL, block_clocks};
use gl_model::Record;
use gl_places::{Place, event_places};
use std::alloc::{AllocError, Global};

// Puts the accesses in the order of their numbers.
fn put_in_order(accesses: &mut Vec<Access>) -> Result<(), AllocError>
    ensures { OnOk result (AreSorted accesses.old.items accesses.new.items) }
{
    accesses.sort_by_key(|access| access.nth)?;
    Ok(())
}

// The clock of each claim's block.
fn claim_clocks(
    alloc: Global,
    rows: &[[u32; ALL]],
    claims: &[Claim],
) -> Result<Vec<[u32; ALL]>, AllocError>
    ensures long { IfOk result (λ known. length known.items ≡ length claims.now) }
    ensures clocks { IfOk result (λ known. (k : ℕ) (l : AClaim) → slice_get claims.now k ≡ Some l → (u : ℕ) → cell known.items k u ≡ cell rows.now l.block u) }
{
    let mut known = Vec::new(alloc);
    for claim in claims {
        known.push(clock_at(rows, claim.block))?;
    }
    Ok(known)
}

// The clock of a block.
fn clock_at(rows: &[[u32; ALL]], block: u64) -> [u32; ALL]
    ensures { (u : ℕ) → at result u ≡ cell rows.now block u }
{
    match rows.get(block as usize) {
        Some(row) => *row,
        None => no_clock(),
    }
}

// The first claim that names another variable than the least on which its entry is racy.
fn first_other(claims: &[Claim], least: &[Option<u16>]) -> Option<Place>
    requires { length least.now ≡ length claims.now }
    ensures { IsFirstOther claims.now least.now result }
{
    for k in 0..claims.len() {
        if claims[k].raised != least[k] {
            return Some(claims[k].place);
        }
    }
    None
}

// The same, where these are the places of the record's events, by position.
fn fault_by_places(
    alloc: Global,
    made: &Record,
    places: &[Place],
) -> Result<Option<Place>, AllocError>
    requires form { Form (lists_of made.now) }
    requires numbered { Numbered (lists_of made.now) }
    requires steps { AreSteps (lists_of made.now) }
    requires places { AreEventPlaces (lists_of made.now) (map seen places.now) }
    ensures { IfOk result (λ found. MatchOption found (Races (lists_of made.now)) (λ c. IsFirstBy Before (RaceFailsAt (lists_of made.now)) (seen c))) }
{
    made.keeps();
    let rows = block_clocks(alloc, made, places)?;
    let mut all = gather(alloc, made)?;
    put_in_order(&mut all.accesses)?;
    let mut known = claim_clocks(alloc, &rows, &all.claims)?;
    learn(alloc, &rows, &all.accesses, &mut known)?;
    let least = least_races(alloc, &all.accesses, &known)?;
    Ok(first_other(&all.claims, &least))
}

/// The first place of a record where an entry is raised, or is not, against the race law, by thread and then by place; `None` where the
/// law holds of the record. For each event and each access there is one clock of 64 bytes, and for each variable of an access 40 bytes.
/// It takes as many steps as there are events and accesses times the threads, and a sort. The only error is want of memory, for which too
/// many events to be counted also stand.
pub fn race_fault(alloc: Global, made: &Record) -> Result<Option<Place>, AllocError>
    requires form { Form (lists_of made.now) }
    requires listed { Listed (lists_of made.now) }
    requires numbered { Numbered (lists_of made.now) }
    requires steps { AreSteps (lists_of made.now) }
    ensures { IfOk result (λ found. MatchOption found (Races (lists_of made.now)) (λ c. IsFirstBy Before (RaceFailsAt (lists_of made.now)) (seen c))) }
{
    let places = event_places(alloc, made)?;
    fault_by_places(alloc, made, &places)
}
