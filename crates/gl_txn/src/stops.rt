// How calls of an attempt end.

/// Why an attempt's read or write was not done.
#[derive(Clone, Copy, Debug, PartialEq, Eq)]
pub enum TxStop {
    /// The pass that holds the row.
    Busy { by: u8 },
    /// The attempt has as many variables as it may have.
    TooLarge,
}

/// How an attempt ended.
#[derive(Clone, Copy, Debug, PartialEq, Eq)]
pub enum TxEnd {
    /// It was committed, at this position of the list.
    Done { at: u64 },
    /// Its commit would have completed a race on this variable.
    Raised { var: u16 },
    /// The variable had another word than the attempt had read.
    Changed { var: u16, read: i64, found: i64 },
}

/// Why an attempt has not ended yet.
#[derive(Clone, Copy, Debug, PartialEq, Eq)]
pub enum TxWait {
    /// The pass that holds a row, or the list.
    Busy { by: u8 },
    /// The ring has no room for an event.
    RingFull { low: u64, tail: u64 },
}
