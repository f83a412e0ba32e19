//! Trace texts: what each line says, the first fault, and the verdicts and the record of a trace.
#![tactic(auto)]

mod form;
mod ids;
mod kept;
mod laws;
mod limits;
mod phrase;
mod quick;
mod reader;
mod standing;
mod stated;
mod tracer;
mod union;
mod verdicts;

pub use kept::Trace;
pub use laws::{one_meaning, traces_are_clean};
pub use limits::{TRACE_BYTES, TRACE_LINES};
pub use reader::{NO_ITEM, TraceReader, read_trace};
pub use stated::limits_are_stated;
pub use tracer::{Tracer, trace_record};
pub use verdicts::{push_races, push_verdict, verdict_text};

#[cfg(test)]
mod tests;
