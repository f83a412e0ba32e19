//! The synchronization events of a thread: each call publishes one act, or says why it did nothing.
#![tactic(auto)]

mod apply;
mod call;
mod done;
mod event;
mod events;
mod look;
mod settling;

pub use call::Call;
pub use done::{Done, Stop};
pub use events::{alloc_object, begin, end, enter, exit, fork, input, join, print, vread, vwrite};
pub use settling::settle;

#[cfg(test)]
mod tests;
