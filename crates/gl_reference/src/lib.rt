//! The reference: happens-before and the race law by the transitive closure over the list of events, and a plain, slow judge of the
//! lines of a trace by them, over all events and all performed accesses so far. It keeps no row, no lockset and no clock. Tests compare
//! the fast judges with it.
#![tactic(auto)]

mod edges;
mod judge;
mod keeping;
mod races;
mod reach;

pub use edges::synchronizes;
pub use judge::SlowJudge;
pub use races::{Next, Performed, first_racy, is_racy};
pub use reach::{Access, happens_before_next};

#[cfg(test)]
mod closure_tests;
#[cfg(test)]
mod judge_tests;
