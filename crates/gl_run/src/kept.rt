use gl_model::Record;
use gl_table::Sealed;

/// What is kept of what a command did.
#[derive(Drop)]
pub enum Kept {
    /// The record of a trace, with what was said of its lines.
    Trace(Record),
    /// The closed table of a run, with its record.
    Run(Sealed),
}
