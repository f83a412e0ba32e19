//! The text of an audit: a program, and then a record of a run of it.
#![tactic(auto)]

mod cut;
mod laws;
mod limits;
mod part;
mod reader;

pub use laws::{limits_are_stated, one_meaning};
pub use limits::AUDIT_BYTES;
pub use part::program_text;
pub use reader::{Audited, read_audit};
