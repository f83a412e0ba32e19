use std::alloc::AllocError;
use thiserror::Error;

/// The first fault of a text: its line, counted from 1, or 0 where it is of the whole text, and its kind.
#[derive(Clone, Copy, Debug, PartialEq, Eq)]
pub struct TextFault {
    pub line: u32,
    pub kind: u8,
}

/// Why a text was not read.
#[derive(Debug, Drop, Error)]
pub enum TextError {
    #[error("line {}: fault of kind {}", .0.line, .0.kind)]
    Fault(TextFault),
    #[error(transparent)]
    Memory(#[from(alloc)] AllocError),
}
