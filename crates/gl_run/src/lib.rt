//! The top call: from the words and the bytes read to the bytes written and the status.
#![tactic(auto)]

mod audits;
mod check;
mod keep;
mod kept;
mod laws;
mod listed;
mod load;
mod options;
mod output;
mod page;
mod reply;
mod run;
mod stated;
mod status;
mod top;
mod verdicts;
mod words;

pub use kept::Kept;
pub use laws::{
    answers_are_settled, audits_are_settled, checks_are_settled, loads_are_settled,
    programs_are_settled,
};
pub use stated::{limits_are_stated, statuses_are_stated};
pub use top::{Answer, goldi, goldi_run, goldi_text, goldi_without_trace};

#[cfg(test)]
mod gate_tests;
#[cfg(test)]
mod tests;
