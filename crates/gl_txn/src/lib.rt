//! Attempts: transactions over the shared table. An attempt looks at words and keeps its writes to itself. Its end is one of three: it is
//! committed, or dropped because a word that it looked at was changed, or dropped because its commit would complete a race.
#![tactic(auto)]

mod attempt;
mod changing;
mod dropping;
mod ending;
mod laws;
mod looking;
mod noting;
mod publishing;
mod racing;
mod stops;
mod taken;

pub use attempt::Txn;
pub use laws::causes_tell_the_ends_apart;
pub use stops::{TxEnd, TxStop, TxWait};

#[cfg(test)]
mod tests;
