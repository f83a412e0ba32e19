//! Races by vector clocks: a detector of a whole trace that keeps no list of events and no set. The judge of a row, by locksets, is that of
//! gl_judge.
#![tactic(auto)]

mod commits;
mod detector;
mod latest;
mod laws;
mod tables;

pub use detector::Detector;
pub use gl_judge::{Verdict, early, judge, note, walk};
pub use latest::{Epoch, Latest};
pub use laws::epochs_are_enough;
pub use tables::Tables;

#[cfg(test)]
mod tests;
