use crate::event::Act;
use crate::held::Held;
use crate::limits::THREADS;
use crate::lockset::Lockset;
use crate::var_set::VarSet;

/// What a row keeps of a performed access: who made it, and its lockset up to a position.
#[derive(Clone, Copy)]
pub struct Info {
    pub thread: u8,
    pub write: bool,
    pub commit: bool,
    pub held: Held,
    pub pos: u64,
    pub set: Lockset,
}

/// A variable: its word, its last write, and each thread's last read since.
#[derive(Clone, Copy)]
pub struct Row {
    pub value: i64,
    pub last_write: Option<Info>,
    pub reads: [Option<Info>; THREADS as usize],
}

/// An access that is asked about.
#[derive(Clone, Copy)]
pub struct Question {
    pub thread: u8,
    pub write: bool,
    pub commit: Option<VarSet>,
    pub held: Held,
}

/// One line of a trace.
#[derive(Clone, Copy)]
pub enum Item {
    Act(Act),
    Access { var: u16, write: bool },
    Commit { reads: VarSet, writes: VarSet },
}

/// What is said of a line.
#[derive(Clone, Copy, Debug, PartialEq, Eq)]
pub enum Judged {
    NoAccess,
    Performed,
    Raised { var: u16 },
}

/// Why a line of a trace cannot stand behind those before it, in the order in which it is looked for.
#[derive(Clone, Copy, Debug, PartialEq, Eq)]
pub enum StepFault {
    /// A commit of more variables than a transaction may have.
    BadSet,
    /// The thread, or the one that it joins, was not forked, or it has ended.
    NotRunning,
    /// The thread 0, or one that was forked before, is forked.
    CannotFork,
    /// A thread joins itself.
    JoinSelf,
    /// Another thread owns the monitor that is entered.
    MonitorOwned,
    /// The thread does not own the monitor that it leaves.
    MonitorNotOwned,
}
