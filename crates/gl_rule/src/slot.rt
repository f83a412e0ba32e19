use gl_state::{KeptRow, ListState};

/// What lies in a slot of the table: slot 0 has the list's state, slot x + 1 the row of variable x.
#[derive(Drop)]
pub enum Slot {
    Empty,
    List(ListState),
    Row(KeptRow),
}
