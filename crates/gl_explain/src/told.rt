// A line of a trace with what is said of it, and why one is a race.
use gl_model::{Item, Judged};

/// A line of a trace: its number, its thread, what it says, and what is said of it.
#[derive(Clone, Copy)]
pub struct Told {
    pub line: u32,
    pub thread: u8,
    pub item: Item,
    pub judged: Judged,
}

/// A line that was taken. `own` is how far its thread knew itself before it, and `mark` is that of its access, where one was performed.
#[derive(Clone, Copy)]
pub struct Kept {
    pub told: Told,
    pub own: u32,
    pub mark: u32,
}

/// Why a line is a race on `var`: the last line that it races with, at which place it stands, and how many others there are; what both
/// threads own, each at its access; where the other thread first hands on what it did; and its last line that leads to the race.
#[derive(Drop)]
pub struct Explanation {
    pub at: Told,
    pub var: u16,
    pub place: usize,
    pub other: Told,
    pub others: usize,
    pub owned: Vec<u16>,
    pub other_owned: Vec<u16>,
    pub handed: Option<Told>,
    pub learnt: Option<Told>,
}

/// The first race of a trace: at which place its line stands, and why it is one.
#[derive(Drop)]
pub struct First {
    pub race: usize,
    pub explanation: Explanation,
}

/// What is found in a text: its first fault, or its lines and the first race among them.
#[derive(Drop)]
pub enum Sought {
    Refused {
        line: u32,
        kind: u8,
    },
    Judged {
        kept: Vec<Kept>,
        first: Option<First>,
    },
}
