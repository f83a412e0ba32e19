// What is said of a race.
use gl_causes::Handing;
use gl_places::Place;
use gl_sites::SourceLine;

/// One of the two accesses of a race.
#[derive(Drop)]
pub struct Side<'a> {
    /// Where it stands in the record.
    pub place: Place,
    /// Whether it is a plain access, and no commit or attempt at one.
    pub plain: bool,
    /// Whether it writes the variable.
    pub write: bool,
    /// The line of the instruction that made it. Of a refused attempt it is that of the instruction that ended the attempt.
    pub source: Option<SourceLine<'a>>,
    /// The monitors that its thread owned there, rising.
    pub owned: Vec<u16>,
}

/// An entry by which a thread hands on what it did, and the line of the instruction that made it.
#[derive(Drop)]
pub struct Handed<'a> {
    pub handing: Handing,
    pub source: Option<SourceLine<'a>>,
}

/// The last entry of a thread that leads to a refused one of another thread, and the line of the instruction that made it.
#[derive(Drop)]
pub struct Leading<'a> {
    pub place: Place,
    pub source: Option<SourceLine<'a>>,
}

/// Why an entry was refused on a variable: the access that it races with, how many others there are, where the other thread first
/// hands on what it did, and how far it leads to the refused entry.
#[derive(Drop)]
pub struct Explanation<'a> {
    pub at: Side<'a>,
    pub var: u16,
    pub other: Side<'a>,
    pub others: usize,
    pub handed: Option<Handed<'a>>,
    pub leading: Option<Leading<'a>>,
}
