//! The options of the commands that run a program, read from the words that give them by clap.
#![tactic(auto)]

mod options;
mod words;

pub use options::{
    DEFAULT_STEPS, DEFAULT_WORKERS, Given, Limits, MOST_DIGITS, MOST_STEPS, MOST_WORKERS,
    NumberOption,
};
pub use words::given_by;
