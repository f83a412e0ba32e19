//! Programs, the instruction table, and what one thread's machine does: the definitions that the validator, the
//! machine, the workers, the audit and the replay share.
#![tactic(auto)]

mod ask;
mod contents;
mod depths;
mod fault;
mod function;
mod instr;
mod laws;
mod limits;
mod object;
mod parts;
mod program;
mod stated;
#[cfg(test)]
mod tests;
mod validator;

pub use ask::{Ask, Failure, Outcome, Reply, Stage};
pub use fault::{
    BAD_CLASS, BAD_FUNCTION, BAD_JUMP, BAD_LOCAL, FALLS_OFF_END, NO_MAIN, ProgError, ProgFault,
    STACK_DEPTH, TOO_LONG,
};
pub use instr::{Catch, Flow, Instr};
pub use laws::{
    definitions_can_be_met, exchanges_are_forced, one_meaning, references_are_read_back,
};
pub use limits::{
    BAD_THREAD, CALLERS, CATCHES, CODE, DEPTH, DIVIDE, HEAP_FULL, INPUT_END, LEAST_THROWN, LOCALS,
    MOST_THROWN, NO_FIELD, NOT_OWNER, NULL, OPERANDS, RACE, THREADS_FULL, TX_STATE, TX_TOO_LARGE,
};
pub use object::{CLASS_UNIT, Fields, Object, VARIABLE_UNIT, VOLATILE_UNIT};
pub use parts::Parts;
pub use program::Program;
pub use stated::{codes_are_stated, kinds_are_stated, limits_are_stated, units_are_stated};
pub use validator::validate;
