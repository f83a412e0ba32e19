//! The judge of a row: the walk of an Info's lockset over further events, whether a next access completes a race, and what a row keeps of a
//! performed access.
#![tactic(auto)]

mod asking;
mod judging;
mod noting;
mod window;

pub use asking::early;
pub use gl_shortcut::passes;
pub use judging::{Verdict, judge};
pub use noting::{new_info, note};
pub use window::walk;
