// What a run is asked with.
ghost use Rattle.std.specs.Prelude.{◌↔◌, IsTrue};
ghost use Rattle.gl_threads.specs.Options.{AreOptions};

use gl_segments::Ring;

/// The most workers.
pub const MOST_WORKERS: u8 = 16;
/// The most instructions that a thread may start.
pub const MOST_STEPS: u32 = 1_000_000;

/// How a program is run: with how many workers, how many instructions for each thread, and over which ring.
#[derive(Clone, Copy)]
pub struct Options {
    pub workers: u8,
    pub steps: u32,
    pub ring: Ring,
}

impl Options {
    /// Whether they are in their limits: 1 to 16 workers, 1 to 1,000,000 instructions, a ring that a table may have.
    pub fn is_valid(&self) -> bool
        ensures { IsTrue result ↔ AreOptions self.now }
    {
        let ring = self.ring;
        0 < self.workers
            && self.workers <= MOST_WORKERS
            && 0 < self.steps
            && self.steps <= MOST_STEPS
            && ring.is_valid()
    }
}
