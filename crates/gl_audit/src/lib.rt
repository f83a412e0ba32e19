//! The exact audit of a record, whoever made it: it is lawful for the program, or which rule it breaks, and where first.
#![tactic(auto)]

mod clauses;
mod finding;
mod laws;
mod whole;

pub use clauses::{FORM, LIST, MACHINE, NUMBERS, PROGRAM, RACES, WORDS};
pub use finding::Finding;
pub use laws::{lawful_is_seven_clauses, one_finding};
pub use whole::audit;

#[cfg(test)]
mod tests;
