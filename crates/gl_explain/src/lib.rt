//! Why a line of a trace is a race.
#![tactic(auto)]

mod explained;
mod explainer;
mod first;
mod owned;
mod page;
mod past;
mod phrases;
mod races;
mod text;
mod told;
mod whole;

pub use first::first_race;
pub use page::{Page, refused};
pub use phrases::{push_item, push_racing, push_thing};
pub use told::{Explanation, First, Kept, Sought, Told};
pub use whole::explain_text;
