//! One thread's machine: it asks, takes an answer, and runs one instruction at most between two asks.
#![tactic(auto)]

mod callers;
mod frame;
mod laws;
mod machine;
mod operands;
mod rows;
mod standing;
#[cfg(test)]
mod tests;

pub use gl_bytecode::{Ask, Reply};
pub use laws::entries_are_bounded;
pub use machine::Machine;
pub use standing::Site;
