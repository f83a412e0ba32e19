// What is drawn.
use gl_explain::Told;

/// How many lines before the one that the race is with are drawn, where there are so many.
pub const LEAD: usize = 8;

/// How many rows are drawn before those that are left out, and how many behind them.
pub const HALF: usize = 24;

/// A column: its thread, and how many columns stand before it.
#[derive(Clone, Copy)]
pub struct Column {
    pub thread: u8,
    pub at: u8,
}

/// A row: its line, how many rows stand above it, with the note where lines are left out, and the rows that arrows lead here from.
#[derive(Drop)]
pub struct Row {
    pub told: Told,
    pub slot: u16,
    pub from: Vec<usize>,
}

/// What is drawn: the columns and how many they are, the rows and how many there are with the note, how many lines are left out between
/// the halves, and which rows are the line that the race is with and the race.
#[derive(Drop)]
pub struct Picture {
    pub columns: Vec<Column>,
    pub width: u8,
    pub rows: Vec<Row>,
    pub height: u16,
    pub left_out: usize,
    pub other: usize,
    pub race: usize,
}

/// Where a row's point is: its column, and how many rows stand above it.
#[derive(Clone, Copy)]
pub struct Cell {
    pub column: u8,
    pub slot: u16,
}

/// A point of the drawing.
#[derive(Clone, Copy)]
pub struct Spot {
    pub x: u32,
    pub y: u32,
}
