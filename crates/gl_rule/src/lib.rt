//! The rule of the shared table: what holds between any two of its steps.
#![tactic(auto)]

mod know;
mod laws;
mod slot;

pub use know::Know;
pub use laws::{
    accesses_keep_the_rule, closed_tables_are_lawful, events_keep_the_rule, fitting_lists_agree,
    loads_keep_the_rule, seats_keep_the_rule, stores_keep_the_rule, tables_are_safe,
    turns_keep_the_rule,
};
pub use slot::Slot;
