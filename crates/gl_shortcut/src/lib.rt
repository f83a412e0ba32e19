//! Short cuts: functions that are kept beside a proved fact, and answer some questions of order before a walk is made.
#![tactic(auto)]

mod cuts;
mod kept;
mod offered;
mod sure;
mod testing;

pub use cuts::{Cuts, ShortCut};
pub use kept::{EarlyFn, LateFn};
pub use offered::{both_commits, same_thread, shared_monitor, two_threads};
pub use sure::Sure;
pub use testing::passes;

#[cfg(test)]
mod tests;
