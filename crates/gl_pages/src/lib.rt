//! Why each race of a run is one, as a page of text.
#![tactic(auto)]

mod facts;
mod page;
mod phrases;
mod run;
mod text;
mod whole;

pub use facts::{Explanation, Handed, Leading, Side};
pub use run::Run;
pub use whole::explain_run;
