use gl_model::{Classes, Inputs};
use gl_segments::Ring;

/// What the table is told once, when it is made: the classes of the program, its inputs, the function that thread 0 begins with, the
/// functions that a thread may be forked with, and the ring.
#[derive(Drop)]
pub struct Layout {
    pub classes: Classes,
    pub inputs: Inputs,
    pub main: u16,
    pub starts: Vec<u16>,
    pub ring: Ring,
}
