//! Names that the comment lines of a trace give to its threads, monitors, volatiles and variables.
#![tactic(auto)]

mod kind;
mod names;
mod naming;
mod stated;
mod table;

pub use kind::{Kind, NAME_BYTES};
pub use names::{Names, names_of};
pub use stated::limits_are_stated;
