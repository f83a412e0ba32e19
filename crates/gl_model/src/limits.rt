/// Program threads.
pub const THREADS: u8 = 16;
/// Objects, each with one monitor.
pub const MONITORS: u16 = 256;
/// Volatile fields.
pub const VOLATILES: u16 = 256;
/// Functions of a program.
pub const FUNCTIONS: u16 = 64;
/// Classes of a program.
pub const CLASSES: u16 = 64;
/// Data variables.
pub const VARIABLES: u16 = 1024;
/// Variables of one transaction.
pub const TX_VARIABLES: u8 = 16;
/// Numbers that a program may be given as its input.
pub const INPUTS: usize = 65_536;
/// Monitors that are kept of those that a thread owns.
pub const HELD: u8 = 4;

// The same two as lengths of arrays.
pub(crate) const TX_ROOM: usize = TX_VARIABLES as usize;

pub(crate) const HELD_ROOM: usize = HELD as usize;
