/// Whether a record is kept of a trace that is checked.
#[derive(Clone, Copy, Debug, PartialEq, Eq)]
pub enum Keep {
    Record,
    Nothing,
}
