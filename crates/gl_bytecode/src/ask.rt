use gl_model::Ending;

/// What a machine asks of those around it.
#[derive(Clone, Copy, Debug, PartialEq, Eq)]
pub enum Ask {
    /// Nothing: the next step may be made.
    Go,
    /// To begin: in which function, and with which argument?
    Begin,
    /// To end.
    End,
    /// Nothing comes any more; this is how the thread ended.
    Over(Ending),
    /// To read a data variable.
    Read { var: u16 },
    /// To write a data variable.
    Write { var: u16, value: i64 },
    /// To read a volatile.
    VRead { field: u16 },
    /// To write a volatile.
    VWrite { field: u16, value: i64 },
    /// To enter a monitor.
    Enter { monitor: u16 },
    /// To leave a monitor.
    Exit { monitor: u16 },
    /// To start a thread in the function, with this argument.
    Fork { func: u16, value: i64 },
    /// To wait for the end of a thread.
    Join { thread: u8 },
    /// A new object of the class.
    Alloc { class: u16 },
    /// To print a number.
    Print { value: i64 },
    /// The next input.
    Input,
    /// To begin an attempt.
    TxBegin,
    /// To end the attempt: with its writes, or with its looks alone.
    TxEnd { keep: bool },
}

/// What a machine is answered.
#[derive(Clone, Copy, Debug, PartialEq, Eq)]
pub enum Reply {
    /// It is done.
    Go,
    /// It is done, and this is the value.
    Value(i64),
    /// The thread begins in the function, with this argument.
    Start { func: u16, value: i64 },
    /// It is refused by the exception with this code.
    Raise(u8),
    /// The attempt is made again.
    Retry,
}

/// Why an attempt is dropped by its own thread.
#[derive(Clone, Copy, Debug, PartialEq, Eq)]
pub enum Failure {
    /// The exception with this code goes on then.
    Raises(u8),
    /// The steps are spent.
    Spends,
}

/// How far a thread is.
#[derive(Clone, Copy, Debug, PartialEq, Eq)]
pub enum Stage {
    /// Nothing was asked yet.
    New,
    /// It asked to begin.
    Begins,
    /// It is about to start the instruction at its place.
    Runs,
    /// The instruction at its place has asked this and waits for the answer.
    Waits(Ask),
    /// It asked to end the attempt without its writes.
    Drops(Failure),
    /// It ends, and asked to leave this monitor.
    Leaves { ending: Ending, monitor: u16 },
    /// It asked to end.
    Ends(Ending),
    /// Nothing comes any more.
    Over(Ending),
}

/// What an instruction does, its operands being known.
#[derive(Clone, Copy, Debug, PartialEq, Eq)]
pub enum Outcome {
    /// The operands go.
    Goes,
    /// This value takes the operands' place.
    Gives(i64),
    /// These two take the operands' place, the second on top.
    GivesTwo(i64, i64),
    /// The operands go, and the local gets the value.
    Sets(u16, i64),
    /// The operands go, and the frame goes on there.
    Jumps(u16),
    /// The function is called; the operands are its arguments, and stay until it returns.
    Calls(u16),
    /// The frame answers this value to its caller.
    Returns(i64),
    /// The thread ends.
    Halts,
    /// The exception with this code is raised.
    Raises(u8),
    /// The answer decides.
    Asks(Ask),
}
