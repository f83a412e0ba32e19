ghost use Rattle.std.specs.Prelude.{◌≡◌, ◌<◌, ◌≤◌, ◌∷◌, ◌++◌, [], length, slice_get, OnOk, OnErr};
ghost use Rattle.gl_model.specs.declared.limits.TheConstants.{CLASSES};

use crate::limits::CLASSES;
use std::alloc::{AllocError, Global};
use std::marker::Model;

/// The classes of a program, in the order of their numbers: at most `CLASSES`, each with how many data fields and how
/// many volatile fields its objects have.
#[derive(Drop)]
pub struct Classes {
    fields: Vec<(u16, u16)>,
}

impl Model for Classes {
    ghost use Rattle.std.specs.Prelude.{List, ℕ, length, ◌≤◌};
    ghost use Rattle.gl_model.specs.declared.limits.TheConstants.{CLASSES};

    ghost Value = { List (ℕ × ℕ) };

    ghost view = { λ s. s.fields.items };

    ghost invariant = { λ s. length s.fields.items ≤ CLASSES };
}

impl Classes {
    /// No class.
    pub fn empty(alloc: Global) -> Classes
        ensures { result ≡ [] }
    {
        Classes {
            fields: Vec::new(alloc),
        }
    }

    /// How many there are.
    pub fn len(&self) -> usize
        ensures count { result ≡ length self.now }
        ensures within { result ≤ CLASSES }
    {
        self.fields.len()
    }

    /// Puts a class behind the others, of which there are fewer than `CLASSES`.
    pub fn push(&mut self, plain: u16, volatile: u16) -> Result<(), AllocError>
        requires { length self.old < CLASSES }
        ensures ok { OnOk result (self.new ≡ self.old ++ (plain, volatile) ∷ []) }
        ensures err { OnErr result (self.new ≡ self.old) }
    {
        self.fields.push((plain, volatile))?;
        Ok(())
    }

    /// The data fields and the volatile fields of class c.
    pub fn get(&self, c: u16) -> Option<(u16, u16)>
        ensures { result ≡ slice_get self.now c }
    {
        self.fields.get(c as usize).copied()
    }
}
