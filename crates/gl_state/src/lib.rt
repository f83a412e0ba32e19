//! What the table keeps: the state of the list, and each row in a box of its own.
#![tactic(auto)]

mod acts;
mod kept;
mod reads;
mod state;

pub use kept::KeptRow;
pub use state::{ListState, Stage};
