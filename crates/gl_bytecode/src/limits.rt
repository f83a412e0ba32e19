/// Instructions of a program, those of all its functions together.
pub const CODE: usize = 4096;
/// Values on the operand stack of one frame.
pub const OPERANDS: usize = 256;
/// Locals of one frame.
pub const LOCALS: usize = 32;
/// Catches of one function.
pub const CATCHES: usize = 16;
/// Frames below the running one.
pub const CALLERS: usize = 63;
/// The least code that a program throws.
pub const LEAST_THROWN: u8 = 100;
/// The greatest code that a program throws.
pub const MOST_THROWN: u8 = 199;

// The exceptions, by their codes.

/// An access or a transaction would complete a race.
pub const RACE: u8 = 1;

/// A number that is used as a reference is none.
pub const NULL: u8 = 2;

/// The object has no such field.
pub const NO_FIELD: u8 = 3;

/// Division by 0.
pub const DIVIDE: u8 = 4;

/// The thread is not in the monitor that it leaves.
pub const NOT_OWNER: u8 = 5;

/// There is no room for the object.
pub const HEAP_FULL: u8 = 6;

/// All threads were forked.
pub const THREADS_FULL: u8 = 7;

/// There is no input left.
pub const INPUT_END: u8 = 8;

/// The transaction touches one variable too many.
pub const TX_TOO_LARGE: u8 = 9;

/// The instruction may not be run inside a transaction, or outside one.
pub const TX_STATE: u8 = 10;

/// The thread cannot be joined.
pub const BAD_THREAD: u8 = 11;

/// There is no room for a further frame.
pub const DEPTH: u8 = 12;
