// The exit statuses, in the order of their numbers.

/// None of the others.
pub const ALL_WELL: u8 = 0;
/// The words are no command.
pub const NO_COMMAND: u8 = 1;
/// A read failed.
pub const READ_FAILED: u8 = 2;
/// A write failed.
pub const WRITE_FAILED: u8 = 3;
/// The text is refused.
pub const REFUSED: u8 = 4;
/// Memory ran out.
pub const NO_MEMORY: u8 = 5;
/// Some access or attempt was refused for a race.
pub const RACES: u8 = 6;
/// None was, and some thread ended otherwise than by halting.
pub const NOT_HALTED: u8 = 7;
/// The record that is audited is not lawful.
pub const NOT_LAWFUL: u8 = 8;
