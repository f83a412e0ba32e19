//! The kinds of asks that a gate is told of: the event kinds of a cell, but that of a failed event, and those of accesses and transactions.

/// A thread begins.
pub const BEGIN: u8 = 1;
/// A thread ends.
pub const END: u8 = 2;
/// A monitor is entered.
pub const ENTER: u8 = 3;
/// A monitor is left.
pub const EXIT: u8 = 4;
/// A volatile is read.
pub const VOLATILE_READ: u8 = 5;
/// A volatile is written.
pub const VOLATILE_WRITE: u8 = 6;
/// A thread is forked.
pub const FORK: u8 = 7;
/// A thread is joined.
pub const JOIN: u8 = 8;
/// An object is made.
pub const ALLOC: u8 = 9;
/// A number is printed.
pub const PRINT: u8 = 10;
/// A number is taken from the input.
pub const INPUT: u8 = 11;
/// A plain read, outside any attempt at a transaction.
pub const PLAIN_READ: u8 = 20;
/// A plain write, outside any attempt at a transaction.
pub const PLAIN_WRITE: u8 = 21;
/// An attempt at a transaction is to end: it tries to commit, or is dropped after an exception.
pub const COMMIT: u8 = 22;
/// An attempt at a transaction reads a variable.
pub const LOOK: u8 = 23;
/// An attempt at a transaction begins. `before` is called before the words that the thread keeps for itself are written back.
pub const TX_BEGIN: u8 = 24;
