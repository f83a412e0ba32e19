ghost use Rattle.std.specs.Prelude.{◌≡◌, List, length, slice_get, Some, None, MatchOption};
ghost use Rattle.gl_trace.specs.Trace.{AreLines};

use gl_model::Item;
use std::marker::Model;

/// What a trace text says, line by line; no line has a fault behind those before it.
#[derive(Drop)]
pub struct Trace {
    pub(crate) lines: Vec<(u32, u8, Item)>,
}

// Seen as the lines that say something.
impl Model for Trace {
    ghost use Rattle.std.specs.Prelude.{List};
    ghost use Rattle.gl_trace.specs.TraceLine.{TraceLine};

    ghost Value = { List TraceLine };

    ghost view = { λ s. s.lines.items };

    ghost use Rattle.gl_trace.specs.Trace.{AreLines};

    ghost invariant = { λ s. AreLines s.lines.items };
}

impl Trace {
    /// The lines that say something, in order: the number of each, counted from 1, its thread, and what it says.
    pub fn lines(&self) -> &[(u32, u8, Item)]
        ensures { result.now ≡ self.now }
    {
        &self.lines
    }

    /// Tells a caller's proof that there are no more than `TRACE_LINES`, that each step is in range, and that none has a
    /// fault behind those before it.
    pub fn keeps(&self)
        ensures { AreLines self.now }
    {
        let _lines = &self.lines;
    }

    /// How many lines say something.
    pub fn len(&self) -> usize
        ensures { result ≡ length self.now }
    {
        self.lines.len()
    }

    /// The line of this index, from 0 on: its number, its thread, and what it says.
    pub fn get(&self, i: usize) -> Option<(u32, u8, &Item)>
        ensures { MatchOption result (slice_get self.now i ≡ None) (λ x. slice_get self.now i ≡ Some (x.0, x.1, x.2.now)) }
    {
        match self.lines.get(i) {
            Some((line, thread, item)) => Some((*line, *thread, item)),
            None => None,
        }
    }
}
