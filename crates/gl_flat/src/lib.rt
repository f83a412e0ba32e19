//! The words of a record: whether each read and each look has the value that it has to have, and the first place where one has not.
#![tactic(auto)]

mod fault;
mod laws;
mod looks;
mod table;
#[cfg(test)]
mod tests;
mod walk;
mod writes;

pub use fault::word_fault;
pub use laws::{
    records_are_legal_where_words_hold, the_first_wrong_word_is_one, the_flat_history_is_one,
};
