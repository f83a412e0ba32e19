//! Places of a record: where an entry stands, which of two places comes first, and what is the first place where something fails.
#![tactic(auto)]

mod place;
mod uses;

pub use place::Place;
pub use uses::{Use, event_places, positions};
