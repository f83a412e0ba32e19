//! The form of a record: the first place where a rule of form is not kept.
#![tactic(auto)]

mod alone;
mod drawn;
mod fault;
mod last;
mod laws;
mod rights;
mod stage;
#[cfg(test)]
mod tests;
mod walk;

pub use fault::form_fault;
pub use laws::form_is_exact;
