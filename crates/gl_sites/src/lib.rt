//! Where what is in a record was written: which instruction made an entry, and the line of the program's text that an instruction stands
//! in.
#![tactic(auto)]

mod adding;
mod laws;
mod making;
mod recorded;
mod source;
#[cfg(test)]
mod tests;

pub use laws::{
    a_plain_access_has_a_line, each_entry_has_one_maker, each_instruction_has_one_line,
};
pub use making::{Maker, makers};
pub use recorded::{maker_at, makers_of};
pub use source::{SourceLine, line_of};
