//! Private words: what a thread reads and writes of variables that it may repeat, without the shared table.
#![tactic(auto)]

mod bits;
mod cache;

pub use cache::WordCache;
