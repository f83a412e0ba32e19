ghost use Rattle.std.specs.Prelude.{◌↔◌, IsTrue};
ghost use Rattle.gl_places.specs.Places.{Before, seen};

/// Where an entry of a record stands: its thread, and its place in the list of that thread, counted from 0. The place behind the
/// last entry of a list is the length of the list.
#[derive(Clone, Copy, Debug, PartialEq, Eq)]
pub struct Place {
    pub thread: u8,
    pub index: u64,
}

impl Place {
    /// Whether it comes before the other: by thread, and then by place.
    pub fn is_before(self, other: Place) -> bool
        ensures { IsTrue result ↔ Before (seen self) (seen other) }
    {
        self.thread < other.thread || self.thread == other.thread && self.index < other.index
    }
}
