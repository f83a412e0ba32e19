//! Whether a record is listed and numbered: whether its events have the positions below their count, each once, and whether the
//! numbers that were drawn on each variable are those below theirs. Where not, the first place that fails.
#![tactic(auto)]

mod draws;
mod faults;
mod laws;
#[cfg(test)]
mod tests;
mod wrong;

pub use faults::{number_fault, position_fault};
pub use laws::{faults_are_exact, numbers_are_apart, one_first_place};
