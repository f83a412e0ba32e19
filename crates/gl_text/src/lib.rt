//! Lines, words and numbers of texts of bytes, and the faults that texts have.
#![tactic(auto)]

mod fault;
pub mod kinds;
mod numerals;
mod parts;
mod stated;
mod text;
mod wide;

pub use fault::{TextError, TextFault};
pub use numerals::{magnitude, natural, number};
pub use parts::{Words, words_are_slices, words_of};
pub use stated::kinds_are_stated;
pub use text::{Line, Lines, is_bad};
