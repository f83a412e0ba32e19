use std::alloc::AllocError;

/// Why a line adds nothing.
#[derive(Debug, Drop)]
pub enum Refusal {
    /// The line has a fault of this kind.
    Kind(u8),
    /// There was not enough memory.
    Memory(AllocError),
}
