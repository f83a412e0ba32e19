ghost use Rattle.std.specs.Prelude.{◌≡◌, ℕ, ◌<◌, ◌≤◌, List, [], length, take, All, IsErr, IsTrue, MatchOption, OnOk, OnErr, ◌↔◌, Contains, slice_get};
ghost use Rattle.gl_model.specs.Kept.{AreVariables};
ghost use Rattle.gl_model.specs.Rising.{with_one, with_all};

use crate::limits::{TX_ROOM, TX_VARIABLES, VARIABLES};
use crate::rising::{is_among, meet, merge, place_in, put_among};
use std::marker::Model;

/// There is no room for another.
#[derive(Clone, Copy, Debug, PartialEq, Eq)]
pub struct Full;

/// The variables of one transaction, rising.
#[derive(Clone, Copy)]
pub struct VarSet {
    ids: [u16; TX_ROOM],
    len: u8,
}

impl Model for VarSet {
    ghost use Rattle.std.specs.Prelude.{◌≡◌, ℕ, ◌≤◌, ◌-◌, ◌++◌, List, length, take, drop, replicate, ◌<◌, All};
    ghost use Rattle.std.specs.List.{AllByRecursion};
    ghost use Rattle.gl_model.specs.Rising.{Rises};
    ghost use Rattle.gl_model.specs.declared.limits.TheConstants.{VARIABLES, TX_VARIABLES};

    ghost Value = { List ℕ };

    ghost view = { λ s. take s.len s.ids };

    ghost invariant = { λ s. (length s.ids ≡ TX_VARIABLES) × (s.len ≤ TX_VARIABLES) × (drop s.len s.ids ≡ replicate (TX_VARIABLES - s.len) 0) × AllByRecursion (λ x. x < VARIABLES) (take s.len s.ids) × Rises (take s.len s.ids) };

    ghost inverse = { λ xs. record { ids = xs ++ replicate (TX_VARIABLES - length xs) 0; len = length xs } };

    ghost use Rattle.gl_model.specs.Padded.{padded_back, head_length};

    ghost inverse_ok = { λ s h i. record { ids = padded_back TX_VARIABLES s.ids s.len h.0 h.1 h.2 i; len = head_length TX_VARIABLES s.ids s.len h.0 h.1 i } };
}

impl VarSet {
    /// No variable.
    pub fn empty() -> VarSet
        ensures { result ≡ [] }
    {
        VarSet {
            ids: [0; TX_ROOM],
            len: 0,
        }
    }

    /// The variables, rising.
    pub fn ids(&self) -> &[u16]
        ensures same { result.now ≡ self.now }
        ensures below { All (λ x. x < VARIABLES) self.now }
    {
        &self.ids[..self.len as usize]
    }

    /// Tells a caller's proof that there are at most `TX_VARIABLES`, that they rise, and that each is one that there is.
    pub fn keeps(&self)
        ensures { AreVariables self.now }
    {
        let _len = self.len;
    }

    /// Puts the variable in, if it is not there.
    pub fn insert(&mut self, var: u16) -> Result<(), Full>
        requires { var < VARIABLES }
        ensures ok { OnOk result (self.new ≡ with_one var self.old) }
        ensures full { IsErr result ↔ ((length self.old ≡ TX_VARIABLES) × (Contains self.old var → ⊥)) }
        ensures err { OnErr result (self.new ≡ self.old) }
    {
        let len = self.len as usize;
        let i = place_in(&self.ids[..len], var);
        if i < len && self.ids[i] == var {
            return Ok(());
        }
        if self.len == TX_VARIABLES {
            return Err(Full);
        }
        put_among(&mut self.ids, len, i, var);
        self.len += 1;
        Ok(())
    }

    /// The variables of both, or `None` where there are more than a transaction may have.
    pub fn union(self, other: &VarSet) -> Option<VarSet>
        ensures { MatchOption result (TX_VARIABLES < length (with_all other.now self)) (λ all. (all ≡ with_all other.now self) × (length (with_all other.now self) ≤ TX_VARIABLES)) }
    {
        self.keeps();
        other.keeps();
        let mut ids = [0; TX_ROOM];
        let len = merge(self.ids(), other.ids(), &mut ids)? as u8;
        Some(VarSet { ids, len })
    }

    /// Whether the variable is in it.
    pub fn has(&self, var: u16) -> bool
        ensures { IsTrue result ↔ Contains self.now var }
    {
        is_among(self.ids(), var)
    }

    /// How many variables there are.
    pub fn len(&self) -> usize
        ensures count { result ≡ length self.now }
        ensures within { result ≤ TX_VARIABLES }
    {
        self.len as usize
    }

    /// The variable at place i, counted from 0.
    pub fn get(&self, i: usize) -> Option<u16>
        ensures { result ≡ slice_get self.now i }
    {
        self.ids().get(i).copied()
    }

    /// Whether some variable is in both.
    pub fn meets(&self, other: &VarSet) -> bool
        ensures { IsTrue result ↔ ((x : ℕ) × Contains self.now x × Contains other.now x) }
    {
        meet(self.ids(), other.ids())
    }
}
