//! Records as texts: what each line of a record text says, its first fault, and the text of a record.
#![tactic(auto)]

mod entries;
mod fields;
mod forms;
mod laws;
mod limits;
mod parts;
mod reader;
mod refusal;
mod stated;
mod sync_kinds;
mod transactions;
mod writing;

pub use laws::{one_meaning, written_is_read};
pub use limits::{LEAST_STEPS, LEAST_VALUE, MOST_STAMP, MOST_STEPS, MOST_VALUE};
pub use reader::read_record;
pub use stated::limits_are_stated;
pub use writing::write_record;

#[cfg(test)]
mod tests;
