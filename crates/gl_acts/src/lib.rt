//! The events of a record against the one-memory machine: whether they are a run of it, and the first place where they are not.
#![tactic(auto)]

mod apply;
mod changes;
mod fault;
mod laws;
mod refusals;

pub use fault::act_fault;
pub use laws::{none_lives_on, one_act_fails_first, runs_do_not_fail, states_are_settled};
