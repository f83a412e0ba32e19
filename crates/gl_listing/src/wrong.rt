ghost use Rattle.std.specs.Prelude.{IfOk, MatchBool, MatchOption, map};
ghost use Rattle.gl_model.specs.Records.{Place as SeenPlace};
ghost use Rattle.gl_places.specs.Places.{Before, IsFirstBy, seen};
ghost use Rattle.gl_places.specs.Uses.{UseFailsAt, use_seen};
ghost use Rattle.gl_listing.specs.Looking.{AreInOrder, IsEarlier, IsMarked, IsRefused};

use gl_places::{Place, Use};
use std::alloc::{AllocError, Global};

// Marks the number, if there is a place for it that is not marked.
fn mark(met: &mut Vec<bool>, number: u64) -> bool
    ensures { MatchBool result (IsMarked met.old.items number met.new.items) (IsRefused met.old.items number) }
{
    if number >= met.len() as u64 {
        return false;
    }
    let i = number as usize;
    let was_met = met[i];
    if was_met {
        return false;
    }
    met[i] = true;
    true
}

// The place of the first of these numbers that is not below how many there are, or that stands before it too.
pub(crate) fn first_wrong(alloc: Global, uses: &[Use]) -> Result<Option<Place>, AllocError>
    requires in_order { AreInOrder (map use_seen uses.now) }
    ensures { IfOk result (λ found. MatchOption found ((c : SeenPlace) → UseFailsAt (map use_seen uses.now) c → ⊥) (λ c. IsFirstBy Before (UseFailsAt (map use_seen uses.now)) (seen c))) }
{
    let mut met = vec![in alloc; false; uses.len()]?;
    for tried in uses {
        if !mark(&mut met, tried.number) {
            return Ok(Some(tried.place));
        }
    }
    Ok(None)
}

// The earlier of two places, or the one that there is.
pub(crate) fn earlier(one: Option<Place>, other: Option<Place>) -> Option<Place>
    ensures { IsEarlier one other result }
{
    match (one, other) {
        (Some(c), Some(d)) => if d.is_before(c) { other } else { one },
        (Some(_), None) => one,
        (None, _) => other,
    }
}
