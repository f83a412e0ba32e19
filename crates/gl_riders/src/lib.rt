//! One thread of a program over the shared table: its machine asks, and its pass, its attempt and its private words answer.
#![tactic(auto)]

mod events;
mod one;
mod thread;
mod tried;
mod tries;
mod words;

pub use one::try_one;
pub use thread::{Lent, Run, Thread};
pub use tried::Tried;
