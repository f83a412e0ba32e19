/// What is found of a record: it is lawful, or this clause is the least that it fails, here first. Threads, places and clauses go by
/// number: threads and places from 0 up, clauses from `FORM` to `PROGRAM`.
#[derive(Clone, Copy, Debug, PartialEq, Eq)]
pub enum Finding {
    Lawful,
    Not { thread: u8, index: u64, clause: u8 },
}
