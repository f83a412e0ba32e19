//! What goldi is proved against: types, the definitions of order, and the lockset rules.
#![tactic(auto)]

mod classes;
mod event;
mod held;
mod inputs;
mod limits;
mod lockset;
mod record;
mod rising;
mod row;
mod stated;
mod tx;
mod var_set;

pub use classes::Classes;
pub use event::{Act, Element, Event, Stamp};
pub use held::Held;
pub use inputs::Inputs;
pub use limits::{
    CLASSES, FUNCTIONS, HELD, INPUTS, MONITORS, THREADS, TX_VARIABLES, VARIABLES, VOLATILES,
};
pub use lockset::Lockset;
pub use record::{Ending, Entry, Record, RecordRoom};
pub use row::{Info, Item, Judged, Question, Row, StepFault};
pub use stated::limits_are_stated;
pub use tx::{Look, Looks, Number, Numbers, Pair, Pairs, Tx, Why};
pub use var_set::{Full, VarSet};

#[cfg(test)]
mod tests;
