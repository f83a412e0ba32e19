use gl_places::Place;

/// An access of one variable, as it is judged.
#[derive(Clone, Copy, Debug, PartialEq, Eq)]
pub struct Access {
    /// The variable.
    pub var: u16,
    /// Its number on the variable.
    pub nth: u64,
    /// Where its entry stands among the claims.
    pub claim: usize,
    /// Its thread.
    pub thread: u8,
    /// How many events stood in the list when it was made.
    pub tick: u64,
    /// Whether it is a commit, or a refused one.
    pub commit: bool,
    /// Whether it writes the variable, or would have.
    pub write: bool,
    /// Whether it was performed.
    pub performed: bool,
}

/// What an entry says of races: on which variable it was raised, if it was.
#[derive(Clone, Copy, Debug, PartialEq, Eq)]
pub struct Claim {
    /// Where the entry stands.
    pub place: Place,
    /// The position of the last event of its thread at or before it.
    pub block: u64,
    /// The variable on which it was raised.
    pub raised: Option<u16>,
}
