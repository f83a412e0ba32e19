//! The report and the summary of a record, of any number of threads.
#![tactic(auto)]

mod entries;
mod lines;
mod page;
#[cfg(test)]
mod page_tests;
mod prints;
mod totals;
#[cfg(test)]
mod totals_tests;

pub use entries::entries_of;
pub use lines::is_raised;
pub use page::{report, report_of_entries};
pub use totals::{summary, summary_of_entries};
