ghost use Rattle.std.specs.Prelude.{◌≡◌, ◌<◌, ◌≤◌, ◌∷◌, ◌++◌, [], length, slice_get, OnOk, OnErr};
ghost use Rattle.gl_model.specs.declared.limits.TheConstants.{INPUTS};

use crate::limits::INPUTS;
use std::alloc::{AllocError, Global};
use std::marker::Model;

/// The numbers that a program reads, one after another: at most `INPUTS`.
#[derive(Drop)]
pub struct Inputs {
    values: Vec<i64>,
}

impl Model for Inputs {
    ghost use Rattle.std.specs.Prelude.{List, ℤ, length, ◌≤◌};
    ghost use Rattle.gl_model.specs.declared.limits.TheConstants.{INPUTS};

    ghost Value = { List ℤ };

    ghost view = { λ s. s.values.items };

    ghost invariant = { λ s. length s.values.items ≤ INPUTS };
}

impl Inputs {
    /// No number.
    pub fn empty(alloc: Global) -> Inputs
        ensures { result ≡ [] }
    {
        Inputs {
            values: Vec::new(alloc),
        }
    }

    /// How many there are.
    pub fn len(&self) -> usize
        ensures count { result ≡ length self.now }
        ensures within { result ≤ INPUTS }
    {
        self.values.len()
    }

    /// Puts one behind the others, of which there are fewer than `INPUTS`.
    pub fn push(&mut self, value: i64) -> Result<(), AllocError>
        requires { length self.old < INPUTS }
        ensures ok { OnOk result (self.new ≡ self.old ++ value ∷ []) }
        ensures err { OnErr result (self.new ≡ self.old) }
    {
        self.values.push(value)?;
        Ok(())
    }

    /// The number at place i, counted from 0.
    pub fn get(&self, i: usize) -> Option<i64>
        ensures { result ≡ slice_get self.now i }
    {
        self.values.get(i).copied()
    }
}
