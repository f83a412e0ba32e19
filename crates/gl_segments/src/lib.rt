//! The ring of segments that the list of events lies in.
#![tactic(auto)]

ghost use Rattle.std.specs.Prelude.{◌≡◌, ◌↔◌, ◌+◌, ◌*◌, ◌/◌, ◌%◌, ◌<◌, ◌≤◌, IsTrue};
ghost use Rattle.gl_segments.specs.Rings.{IsRing};

#[cfg(test)]
mod tests;

/// The fewest segments of a ring.
pub const LEAST_SEGMENTS: u16 = 2;
/// The most segments of a ring.
pub const MOST_SEGMENTS: u16 = 64;
/// The fewest cells of a segment.
pub const LEAST_CELLS: u16 = 4;
/// The most cells of a segment.
pub const MOST_CELLS: u16 = 64;

/// The segments of a ring and the cells of each segment: 2 to 64 segments of 4 to 64 cells. The event at a position stands in
/// the cell of that position modulo the number of all cells; segments are counted without end, and a segment is given again
/// as many segments later as the ring has.
#[derive(Clone, Copy, Debug, PartialEq, Eq)]
pub struct Ring {
    pub segments: u16,
    pub cells: u16,
}

impl Ring {
    /// The ring of 64 segments of 64 cells.
    pub fn standard() -> Ring
        ensures ring { IsRing result }
        ensures is { (result.segments ≡ 64) × (result.cells ≡ 64) }
    {
        Ring {
            segments: MOST_SEGMENTS,
            cells: MOST_CELLS,
        }
    }

    /// Whether there are 2 to 64 segments of 4 to 64 cells.
    pub fn is_valid(self) -> bool
        ensures { IsTrue result ↔ IsRing self }
    {
        LEAST_SEGMENTS <= self.segments
            && self.segments <= MOST_SEGMENTS
            && LEAST_CELLS <= self.cells
            && self.cells <= MOST_CELLS
    }

    /// How many cells there are in all.
    pub fn len(self) -> u64
        requires ring { IsRing self }
        ensures is { result ≡ self.segments * self.cells }
        ensures within { (8 ≤ result) × (result ≤ 4096) }
    {
        self.segments as u64 * self.cells as u64
    }
}

/// The cell of a position, counted from 0 over the whole ring.
pub fn slot_of(ring: Ring, pos: u64) -> u64
    requires ring { IsRing ring }
    ensures { result ≡ pos % (ring.segments * ring.cells) }
{
    pos % ring.len()
}

/// The segment of a position.
pub fn segment_of(ring: Ring, pos: u64) -> u64
    requires ring { IsRing ring }
    ensures { result ≡ pos / ring.cells }
{
    pos / ring.cells as u64
}

/// Whether an event may stand at this tail, where the ring begins with the segment `low`.
#[tactic(auto, using(crate::proofs::Cells::room_cells))]
pub fn room(ring: Ring, low: u64, tail: u64) -> bool
    requires ring { IsRing ring }
    ensures segments { IsTrue result ↔ (tail / ring.cells < low + ring.segments) }
    ensures cells { IsTrue result ↔ (tail < low * ring.cells + ring.segments * ring.cells) }
{
    match low.checked_add(ring.segments as u64) {
        Some(end) => segment_of(ring, tail) < end,
        None => true,
    }
}

/// The position that a sweep moves Infos to: the first of the tail's segment.
pub fn target(ring: Ring, tail: u64) -> u64
    requires ring { IsRing ring }
    ensures is { result ≡ tail / ring.cells * ring.cells }
    ensures within { result ≤ tail }
{
    segment_of(ring, tail) * ring.cells as u64
}
