//! The kinds of faults of a text.

/// The text has more bytes than its limit.
pub const TOO_LONG: u8 = 1;
/// The line has a byte that no line may have.
pub const BAD_BYTE: u8 = 2;
/// The text has more lines than its limit.
pub const TOO_MANY_LINES: u8 = 3;
/// The word that tells the line's form is none of the stated ones.
pub const UNKNOWN_WORD: u8 = 4;
/// A word is missing or too many.
pub const WORD_COUNT: u8 = 5;
/// A word in a number's place is no number in its range.
pub const BAD_NUMBER: u8 = 6;
/// The line defines a name that an earlier line defined in the same scope.
pub const NAME_TAKEN: u8 = 7;
/// The line names what no line defines in its scope.
pub const NAME_UNKNOWN: u8 = 8;
/// The line stands where none of its form may stand.
pub const MISPLACED: u8 = 10;
/// A word in a defined name's place is no name.
pub const BAD_NAME: u8 = 11;
/// The line adds one more than there may be.
pub const TOO_MANY: u8 = 12;
/// Another thread owns the monitor that is entered.
pub const MONITOR_OWNED: u8 = 20;
/// The thread does not own the monitor that it leaves.
pub const MONITOR_NOT_OWNED: u8 = 21;
/// The thread, or the one that it joins, was not forked, or it has ended.
pub const NOT_RUNNING: u8 = 22;
/// The thread 0, or one that was forked before, is forked.
pub const CANNOT_FORK: u8 = 23;
/// A thread joins itself.
pub const JOIN_SELF: u8 = 24;
/// A list does not rise strictly, or there are too many parts or variables.
pub const BAD_SET: u8 = 25;
/// A record text does not begin with its header.
pub const BAD_HEADER: u8 = 30;
/// A record line stands where none of its form may stand.
pub const BAD_ORDER: u8 = 31;
/// A record text does not end.
pub const NO_DONE: u8 = 32;
/// The kind of a program's fault is this and the fault's own kind, 1 to 8.
pub const PROGRAM_FAULT_BASE: u8 = 40;
