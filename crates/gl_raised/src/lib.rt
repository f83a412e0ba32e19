//! Races of a record: whether its entries are raised as the race law says, and the first that is not.
#![tactic(auto)]

mod access;
mod fault;
mod gather;
mod judge;
mod lasts;
mod learn;
mod rows;

pub use access::{Access, Claim};
pub use fault::race_fault;
pub use rows::block_clocks;
