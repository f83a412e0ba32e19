// The shapes of the drawing.
ghost use Rattle.std.specs.Prelude.{◌≡◌, ◌++◌, OnOk};
ghost use Rattle.gl_picture.specs.Shapes.{circle_text, line_text, opening_text, pair_text, words_text};

use crate::escape::{push, push_escaped, push_number};
use crate::picture::Spot;
use std::alloc::AllocError;

/// How the shapes look: the classes that they name, the tip of an arrow, and what lies below them.
pub const STYLE: &str = "<style>\n\
    text { font: 12px monospace; paint-order: stroke; stroke: white; stroke-width: 3px }\n\
    .life { stroke: #bbb }\n\
    .arrow { fill: none; stroke: #26a; marker-end: url(#tip) }\n\
    .race { stroke: #c00; stroke-dasharray: 5 4 }\n\
    .mark { fill: none; stroke: #c00; stroke-width: 2px }\n\
    .head { text-anchor: middle; font-weight: bold }\n\
    .line { text-anchor: end; fill: #777 }\n\
    .note { fill: #777 }\n\
    .said { fill: #c00 }\n\
    </style>\n\
    <defs><marker id='tip' viewBox='0 0 8 8' refX='13' refY='4' markerWidth='8' markerHeight='8' \
    orient='auto' markerUnits='userSpaceOnUse'><path d='M0 0L8 4L0 8z' fill='#26a'/></marker></defs>\n\
    <rect width='100%' height='100%' fill='white'/>\n";

/// Adds the two coordinates of a point, each behind its word.
#[tactic(auto, unfolding(crate::specs::Shapes::pair_text))]
pub fn push_pair(out: &mut Vec<u8>, x: &str, y: &str, spot: Spot) -> Result<(), AllocError>
    ensures { OnOk result (out.new.items ≡ out.old.items ++ pair_text x.now y.now spot) }
{
    push(out, x)?;
    push_number(out, spot.x)?;
    push(out, y)?;
    push_number(out, spot.y)
}

/// Adds a line.
#[tactic(auto, unfolding(crate::specs::Shapes::line_text))]
pub fn push_line(out: &mut Vec<u8>, style: &str, from: Spot, to: Spot) -> Result<(), AllocError>
    ensures { OnOk result (out.new.items ≡ out.old.items ++ line_text style.now from to) }
{
    push(out, "<line ")?;
    push(out, style)?;
    push_pair(out, " x1='", "' y1='", from)?;
    push_pair(out, "' x2='", "' y2='", to)?;
    push(out, "'/>\n")
}

/// Adds a circle.
#[tactic(auto, unfolding(crate::specs::Shapes::circle_text))]
pub fn push_circle(out: &mut Vec<u8>, style: &str, spot: Spot) -> Result<(), AllocError>
    ensures { OnOk result (out.new.items ≡ out.old.items ++ circle_text style.now spot) }
{
    push(out, "<circle ")?;
    push(out, style)?;
    push_pair(out, " cx='", "' cy='", spot)?;
    push(out, "'/>\n")
}

/// Adds words.
#[tactic(auto, unfolding(crate::specs::Shapes::words_text))]
pub fn push_words(
    out: &mut Vec<u8>,
    style: &str,
    spot: Spot,
    words: &[u8],
) -> Result<(), AllocError>
    ensures { OnOk result (out.new.items ≡ out.old.items ++ words_text style.now spot words.now) }
{
    push(out, "<text ")?;
    push(out, style)?;
    push_pair(out, " x='", "' y='", spot)?;
    push(out, "'>")?;
    push_escaped(out, words)?;
    push(out, "</text>\n")
}

/// Adds the beginning of a drawing so wide and so high.
#[tactic(auto, unfolding(crate::specs::Shapes::opening_text))]
pub fn push_opening(out: &mut Vec<u8>, size: Spot) -> Result<(), AllocError>
    ensures { OnOk result (out.new.items ≡ out.old.items ++ opening_text size) }
{
    push_pair(
        out,
        "<svg xmlns='http://www.w3.org/2000/svg' width='",
        "' height='",
        size,
    )?;
    push(out, "'>\n")?;
    push(out, STYLE)
}
