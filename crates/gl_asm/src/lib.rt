//! Program texts: the assembler, and the canonical listing.
#![tactic(auto)]

mod additions;
mod assembling;
mod definitions;
mod forms;
mod laws;
mod limits;
mod listing;
mod names;
mod places;
mod refusal;
mod sayings;
mod stated;
mod table;

pub use assembling::{Assembled, assemble};
pub use laws::{listing_is_text, one_meaning};
pub use listing::list;
pub use stated::{bytes_are_stated, limits_are_stated};

#[cfg(test)]
mod tests;
