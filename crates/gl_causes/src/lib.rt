//! Why entries of a record are races: of each entry that was refused, the access that it races with.
#![tactic(auto)]

mod cause;
mod handing;
mod laws;
mod leading;
mod learn;
mod owned;
mod races;
mod refusals;
mod stands;

pub use cause::{Cause, causes};
pub use handing::{Handing, Way, first_handing};
pub use laws::an_entry_has_one_cause;
pub use owned::owned_at;
pub use races::{is_plain, writes_to};

#[cfg(test)]
mod tests;
