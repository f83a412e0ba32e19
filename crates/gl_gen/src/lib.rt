//! Programs that are made and not read: the bank.
#![tactic(auto)]

mod accounts;
mod code;
mod laws;
#[cfg(test)]
mod tests;

pub use accounts::{MOST_TRANSFERS, bank};
pub use laws::the_bank_has_no_fault;
