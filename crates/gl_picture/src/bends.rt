// Arrows.
ghost use Rattle.std.specs.Prelude.{◌≡◌, ◌++◌, OnOk};
ghost use Rattle.gl_picture.specs.Shapes.{bend_text, bent_text};

use crate::elements::push_pair;
use crate::escape::push;
use crate::picture::{Cell, Spot};
use crate::positions::{spot_of, x_of, y_of};
use std::alloc::AllocError;

// Adds a line through four points.
#[tactic(auto, unfolding(crate::specs::Shapes::bent_text))]
fn push_bent(out: &mut Vec<u8>, a: Spot, b: Spot, c: Spot, d: Spot) -> Result<(), AllocError>
    ensures { OnOk result (out.new.items ≡ out.old.items ++ bent_text a b c d) }
{
    push_pair(out, "<polyline class='arrow' points='", ",", a)?;
    push_pair(out, " ", ",", b)?;
    push_pair(out, " ", ",", c)?;
    push_pair(out, " ", ",", d)?;
    push(out, "'/>\n")
}

/// Adds an arrow.
#[tactic(auto, unfolding(crate::specs::Shapes::bend_text))]
pub fn push_bend(out: &mut Vec<u8>, from: Cell, to: Cell) -> Result<(), AllocError>
    ensures { OnOk result (out.new.items ≡ out.old.items ++ bend_text from to) }
{
    let start = x_of(from.column);
    let end = x_of(to.column);
    let y = y_of(from.slot) + 13;
    if from.column < to.column {
        let left = Spot { x: start + 14, y };
        let right = Spot { x: end - 95, y };
        push_bent(out, spot_of(from), left, right, spot_of(to))
    } else {
        let right = Spot { x: start - 14, y };
        let left = Spot { x: end + 95, y };
        push_bent(out, spot_of(from), right, left, spot_of(to))
    }
}
