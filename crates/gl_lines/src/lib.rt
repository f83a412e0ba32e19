//! What the lines of a trace leave: events, a record and the draws of each variable.
#![tactic(auto)]

mod laws;

pub use laws::{records_of_traces, rows_of_traces, traces_belong_together, verdicts_of_traces};
