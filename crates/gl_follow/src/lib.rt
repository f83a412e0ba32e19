//! Is each thread's list what the program's instructions make of the answers in it?
#![tactic(auto)]

mod answers;
mod follow;
mod laws;
mod program;
mod replay;
mod words;

pub use laws::a_list_fails_its_program_at_one_place;
pub use program::program_fault;
pub use replay::Replay;
