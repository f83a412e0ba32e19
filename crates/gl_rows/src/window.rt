// Room for the events of a walk.
ghost use Rattle.std.specs.Prelude.{◌*◌, ◌≤◌, IfOk};
ghost use Rattle.gl_segments.specs.Rings.{IsRing};

use gl_model::Stamp;
use gl_segments::Ring;
use std::alloc::{AllocError, Global};
use std::marker::Model;

/// Room for the events that a walk loads. It is seen as how many events fit; that is never less than the ring has cells.
#[derive(Drop)]
pub struct Window {
    pub(crate) events: Vec<Stamp>,
}

impl Model for Window {
    ghost use Rattle.std.specs.Prelude.{ℕ, vec_capacity};

    ghost Value = { ℕ };

    ghost view = { λ w. vec_capacity w.events };
}

impl Window {
    /// Room for as many events as the ring has cells, so for each walk over a table with this ring.
    pub fn new(alloc: Global, ring: Ring) -> Result<Window, AllocError>
        requires ring { IsRing ring }
        ensures { IfOk result (λ w. ring.segments * ring.cells ≤ w) }
    {
        Ok(Window {
            events: Vec::with_capacity(alloc, ring.len() as usize)?,
        })
    }
}
