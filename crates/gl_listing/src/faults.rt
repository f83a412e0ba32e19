ghost use Rattle.std.specs.Prelude.{IfOk, MatchOption};
ghost use Rattle.gl_model.specs.Form.{Form, Listed, Numbered};
ghost use Rattle.gl_model.specs.Lists.{lists_of};
ghost use Rattle.gl_places.specs.Places.{Before, IsFirstBy, seen};
ghost use Rattle.gl_places.specs.Uses.{PositionFailsAt};
ghost use Rattle.gl_listing.specs.Numbering.{NumberFailsAt};

use crate::draws::Draws;
use crate::wrong::first_wrong;
use gl_model::Record;
use gl_places::{Place, positions};
use std::alloc::{AllocError, Global};

/// Whether the record is listed: nothing if it is, else the first place whose position is not below how many events there are, or is
/// that of an earlier place too. The only error is want of memory.
pub fn position_fault(alloc: Global, made: &Record) -> Result<Option<Place>, AllocError>
    ensures { IfOk result (λ found. MatchOption found (Listed (lists_of made.now)) (λ c. IsFirstBy Before (PositionFailsAt made.now) (seen c))) }
{
    made.keeps();
    let uses = positions(alloc, made)?;
    first_wrong(alloc, &uses)
}

/// Whether a record of the form is numbered: nothing if it is, else the first place that drew a number on some variable which is not
/// below how many were drawn there, or which was drawn before. The only error is want of memory.
pub fn number_fault(alloc: Global, made: &Record) -> Result<Option<Place>, AllocError>
    requires form { Form (lists_of made.now) }
    ensures { IfOk result (λ found. MatchOption found (Numbered (lists_of made.now)) (λ c. IsFirstBy Before (NumberFailsAt made.now) (seen c))) }
{
    made.keeps();
    let draws = Draws::of(alloc, made)?;
    draws.first_wrong(alloc)
}
