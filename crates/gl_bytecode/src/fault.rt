use std::alloc::AllocError;
use thiserror::Error;

/// A jump's target is no instruction of its function, or a catch's places are not in order within the code.
pub const BAD_JUMP: u8 = 1;

/// A function that is called or forked is not there, or one that is forked has not exactly one argument.
pub const BAD_FUNCTION: u8 = 2;

/// A class is not there.
pub const BAD_CLASS: u8 = 3;

/// A local is not there.
pub const BAD_LOCAL: u8 = 4;

/// The instructions that are reached cannot be given depths of the operand stack.
pub const STACK_DEPTH: u8 = 5;

/// A function may be run past its last instruction.
pub const FALLS_OFF_END: u8 = 6;

/// A limit is passed.
pub const TOO_LONG: u8 = 7;

/// No function is main, or main has arguments.
pub const NO_MAIN: u8 = 8;

/// What is wrong with a program, and where: a function's number, and a place in it. That place is an instruction's
/// index, or the function's length and the number of a catch.
#[derive(Clone, Copy, Debug, PartialEq, Eq)]
pub struct ProgFault {
    pub kind: u8,
    pub function: u16,
    pub at: u16,
}

/// Why there is no program.
#[derive(Debug, Drop, Error)]
pub enum ProgError {
    /// The parts are no valid program; this is their first fault.
    #[error("program fault {} of function {} at {}", .0.kind, .0.function, .0.at)]
    Fault(ProgFault),
    /// There was not enough memory.
    #[error(transparent)]
    Memory(#[from(alloc)] AllocError),
}
