//! The threads of a program, run by workers over the shared table.
#![tactic(auto)]

mod advance;
mod aids;
mod crew;
mod dealing;
mod gate;
pub mod kinds;
mod layout;
mod options;
mod rider;
mod roll;
mod run;
mod stated;
mod working;

pub use gate::{Gate, Open};
pub use options::{MOST_STEPS, MOST_WORKERS, Options};
pub use run::run_program;
pub use stated::kinds_are_stated;
pub use working::work;
