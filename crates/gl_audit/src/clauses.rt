/// The record is well formed.
pub const FORM: u8 = 1;
/// Its events have the positions below their count, each once.
pub const LIST: u8 = 2;
/// The numbers that were drawn on each variable are those below their count, each once.
pub const NUMBERS: u8 = 3;
/// Its events are a run of the one-memory machine.
pub const MACHINE: u8 = 4;
/// Its entries are raised as the race law says.
pub const RACES: u8 = 5;
/// Each read and each look has the value that it has to have.
pub const WORDS: u8 = 6;
/// Each list is what its thread's instructions make of the answers in it.
pub const PROGRAM: u8 = 7;
