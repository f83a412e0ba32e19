//! A picture of a trace round its first race, as SVG.
#![tactic(auto)]

mod arrows;
mod bends;
mod drawn;
mod elements;
mod escape;
mod labels;
mod order;
mod picture;
mod positions;
mod stated;
mod text;
mod whole;

pub use order::arrows_keep_order;
pub use picture::{Cell, Column, HALF, LEAD, Picture, Row, Spot};
pub use stated::limits_are_stated;
pub use whole::picture_page;
