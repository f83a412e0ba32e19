ghost use Rattle.std.specs.Prelude.{◌≡◌, ℕ, ◌<◌, ◌↔◌, [], take, IsTrue, Contains};
ghost use Rattle.gl_model.specs.Rising.{with_one};
ghost use Rattle.gl_model.specs.declared.limits.TheConstants.{HELD, MONITORS};

use crate::limits::{HELD, HELD_ROOM, MONITORS};
use crate::rising::{meet, place_among, put_among};
use std::marker::Model;

/// The at most `HELD` least monitors that a thread owns, rising.
#[derive(Clone, Copy)]
pub struct Held {
    monitors: [u16; HELD_ROOM],
    len: u8,
}

impl Model for Held {
    ghost use Rattle.std.specs.Prelude.{◌≡◌, ℕ, ◌<◌, ◌≤◌, ◌-◌, ◌++◌, List, length, take, drop, replicate};
    ghost use Rattle.std.specs.List.{AllByRecursion};
    ghost use Rattle.gl_model.specs.Rising.{Rises};
    ghost use Rattle.gl_model.specs.declared.limits.TheConstants.{HELD, MONITORS};

    ghost Value = { List ℕ };

    ghost view = { λ s. take s.len s.monitors };

    ghost invariant = { λ s. (length s.monitors ≡ HELD) × (s.len ≤ HELD) × (drop s.len s.monitors ≡ replicate (HELD - s.len) 0) × AllByRecursion (λ o. o < MONITORS) (take s.len s.monitors) × Rises (take s.len s.monitors) };

    ghost inverse = { λ xs. record { monitors = xs ++ replicate (HELD - length xs) 0; len = length xs } };

    ghost use Rattle.gl_model.specs.Padded.{padded_back, head_length};

    ghost inverse_ok = { λ s h i. record { monitors = padded_back HELD s.monitors s.len h.0 h.1 h.2 i; len = head_length HELD s.monitors s.len h.0 h.1 i } };
}

impl Held {
    /// No monitor.
    pub fn empty() -> Held
        ensures { result ≡ [] }
    {
        Held {
            monitors: [0; HELD_ROOM],
            len: 0,
        }
    }

    /// The monitors, rising.
    pub fn monitors(&self) -> &[u16]
        ensures { result.now ≡ self.now }
    {
        &self.monitors[..self.len as usize]
    }

    /// Puts the monitor in, and keeps the `HELD` least.
    pub fn add(&mut self, monitor: u16)
        requires { monitor < MONITORS }
        ensures { self.new ≡ take HELD (with_one monitor self.old) }
    {
        let len = self.len as usize;
        let i = place_among(&self.monitors[..len], monitor);
        if i < len && self.monitors[i] == monitor {
            return;
        }
        if self.len < HELD {
            put_among(&mut self.monitors, len, i, monitor);
            self.len += 1;
        } else if i < len {
            put_among(&mut self.monitors, len - 1, i, monitor);
        }
    }

    /// Whether some monitor is in both.
    pub fn shares(&self, other: &Held) -> bool
        ensures { IsTrue result ↔ ((o : ℕ) × Contains self.now o × Contains other.now o) }
    {
        meet(self.monitors(), other.monitors())
    }
}
