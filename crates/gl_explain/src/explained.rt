// Why a line is a race.
ghost use Rattle.std.specs.Prelude.{◌≡◌, ◌≤◌, ◌<◌, ◌^◌, ◌-◌, ℕ, length, IfOk, Some, slice_get};
ghost use Rattle.gl_model.specs.TraceSteps.{IsLineItem};
ghost use Rattle.gl_model.specs.declared.row.Judged.TheVariants.{Raised};
ghost use Rattle.gl_explain.specs.Explained.{IsExplained, IsLastTold};
ghost use Rattle.gl_explain.specs.Marks.{Tells};
ghost use Rattle.gl_explain.specs.Races.{IsCulprit, IsPassed};
ghost use Rattle.gl_explain.specs.Told.{told_of};
ghost use Rattle.gl_explain.specs.declared.told.Kept.{Kept as AKept};

use crate::owned::owned;
use crate::past::{first_handed, last_passed};
use crate::races::{Culprit, last_culprit, tick_of};
use crate::told::{Explanation, Kept, Told};
use gl_model::THREADS;
use std::alloc::{AllocError, Global};

// The threads as a length.
const ALL: usize = THREADS as usize;

// The last line of the thread before which a clock has passed it.
fn last_learnt(kept: &[Kept], thread: u8, known: u32) -> Option<Told>
    ensures { IsLastTold (IsPassed kept.now thread known) (told_of kept.now) result }
{
    match last_passed(kept, thread, known) {
        Some(place) => Some(kept[place].told),
        None => None,
    }
}

/// Why the line is a race on the variable, behind the lines that were kept, to who knows so much of each thread.
pub fn explained(
    alloc: Global,
    kept: &[Kept],
    at: &Told,
    var: u16,
    known: &[u32; ALL],
) -> Result<Explanation, AllocError>
    requires few { length kept.now ≤ 2 ^ 32 - 2 }
    requires lines { (i : ℕ) (k : AKept) → slice_get kept.now i ≡ Some k → IsLineItem k.told.item }
    requires raised { at.now.judged ≡ Raised var }
    requires some { (i : ℕ) × IsCulprit (told_of kept.now) at.now var i }
    requires tells { Tells kept.now at.now known.now }
    ensures of { IfOk result (λ e. e.at ≡ at.now) }
    ensures right { IfOk result (IsExplained (told_of kept.now)) }
{
    let Culprit { place, others } = last_culprit(kept, at, var, known);
    let other = kept[place].told;
    let owned_here = owned(alloc, kept, at.thread)?;
    let other_owned = owned(alloc, &kept[..place], other.thread)?;
    Ok(Explanation {
        at: *at,
        var,
        place,
        other,
        others,
        owned: owned_here,
        other_owned,
        handed: first_handed(kept, place, other.thread),
        learnt: last_learnt(kept, other.thread, tick_of(known, other.thread)),
    })
}
