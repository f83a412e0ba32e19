//! The shared table and its rule.
#![tactic(auto)]

mod close;
mod hold;
mod layout;
mod levels;
mod monitors;
mod moves;
mod new;
mod own_list;
mod pack;
mod pass;
mod rights;
mod rule;
mod sealed;
mod setting;
mod shared;
mod telling;
#[cfg(test)]
mod tests;
mod unpack;
mod walking;

pub use layout::Layout;
pub use pass::Pass;
pub use sealed::Sealed;
pub use shared::{Busy, Shared};
