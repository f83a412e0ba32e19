ghost use Rattle.std.specs.Prelude.{◌≡◌, ◌==◌, ◌↔◌, ℕ, ◌<◌, ◌≤◌, [], length, map, slice_index_or, slice_get, Contains, IsErr, OnOk, OnErr};
ghost use Rattle.std.specs.List.{find};
ghost use Rattle.gl_model.specs.Kept.{AreVariables, IsTxKept};
ghost use Rattle.gl_model.specs.Rising.{with_part};
ghost use Rattle.gl_model.specs.declared.limits.TheConstants.{VARIABLES, TX_VARIABLES};
ghost use Rattle.gl_model.specs.declared.tx.Look.{Look as ALook};
ghost use Rattle.gl_model.specs.declared.tx.Pair.{Pair as APair};
ghost use Rattle.gl_model.specs.declared.tx.Number.{Number as ANumber};

use crate::limits::{TX_ROOM, TX_VARIABLES, VARIABLES};
use crate::rising::put_among;
use crate::var_set::Full;
use std::marker::Model;

/// A word that an attempt looked at, with the number that the look drew.
#[derive(Clone, Copy, Debug, PartialEq, Eq)]
pub struct Look {
    pub var: u16,
    pub value: i64,
    pub nth: u64,
}

/// A word that an attempt writes.
#[derive(Clone, Copy, Debug, PartialEq, Eq)]
pub struct Pair {
    pub var: u16,
    pub value: i64,
}

/// The number that a commit or an abort drew on a variable.
#[derive(Clone, Copy, Debug, PartialEq, Eq)]
pub struct Number {
    pub var: u16,
    pub nth: u64,
}

/// Looks, rising by variable.
#[derive(Drop)]
pub struct Looks {
    parts: [Look; TX_ROOM],
    len: u8,
}

impl Model for Looks {
    ghost use Rattle.std.specs.Prelude.{List, ◌≤◌, take};
    ghost use Rattle.gl_model.specs.declared.tx.Look.{Look};

    ghost Value = { List Look };

    ghost view = { λ s. take s.len s.parts };

    ghost use Rattle.std.specs.Prelude.{◌≡◌, length, map};
    ghost use Rattle.gl_model.specs.Kept.{AreVariables};
    ghost use Rattle.gl_model.specs.declared.limits.TheConstants.{TX_VARIABLES};

    ghost invariant = { λ s. (length s.parts ≡ TX_VARIABLES) × (s.len ≤ TX_VARIABLES) × AreVariables (map (λ p. p.var) (take s.len s.parts)) };
}

impl Looks {
    /// No look.
    pub fn empty() -> Looks
        ensures { result ≡ [] }
    {
        Looks {
            parts: [Look {
                var: 0,
                value: 0,
                nth: 0,
            }; TX_ROOM],
            len: 0,
        }
    }

    // How many are of variables below this one.
    fn place_of(&self, var: u16) -> usize
        ensures within { result ≤ length self.now }
        ensures below { (k : ℕ) (d : ALook) → k < result → (slice_index_or self.now k d).var < var }
        ensures here { (d : ALook) → result < length self.now → var ≤ (slice_index_or self.now result d).var }
    {
        let parts = &self.parts[..self.len as usize];
        for (i, part) in parts.iter().enumerate() {
            if var <= part.var {
                return i;
            }
        }
        parts.len()
    }

    /// Puts the look in its place, instead of one of its variable if there is one.
    pub fn put(&mut self, part: Look) -> Result<(), Full>
        requires { part.var < VARIABLES }
        ensures ok { OnOk result (self.new ≡ with_part (λ p. p.var) part self.old) }
        ensures full { IsErr result ↔ ((length self.old ≡ TX_VARIABLES) × (Contains (map (λ p. p.var) self.old) part.var → ⊥)) }
        ensures err { OnErr result (self.new ≡ self.old) }
    {
        let len = self.len as usize;
        let i = self.place_of(part.var);
        if i < len && self.parts[i].var == part.var {
            self.parts[i] = part;
            return Ok(());
        }
        if self.len == TX_VARIABLES {
            return Err(Full);
        }
        put_among(&mut self.parts, len, i, part);
        self.len += 1;
        Ok(())
    }

    /// The look of the variable.
    pub fn of(&self, var: u16) -> Option<Look>
        ensures { result ≡ find (λ p. p.var == var) self.now }
    {
        for part in &self.parts[..self.len as usize] {
            if part.var == var {
                return Some(*part);
            }
        }
        None
    }

    /// The look at place i, counted from 0.
    pub fn at(&self, i: usize) -> Option<Look>
        ensures { result ≡ slice_get self.now i }
    {
        self.parts[..self.len as usize].get(i).copied()
    }

    /// Tells a caller's proof that there are at most `TX_VARIABLES`, that their variables rise, and that each is one that there is.
    pub fn keeps(&self)
        ensures { AreVariables (map (λ p. p.var) self.now) }
    {
        let _len = self.len;
    }
}

/// Writes, rising by variable.
#[derive(Drop)]
pub struct Pairs {
    parts: [Pair; TX_ROOM],
    len: u8,
}

impl Model for Pairs {
    ghost use Rattle.std.specs.Prelude.{List, ◌≤◌, take};
    ghost use Rattle.gl_model.specs.declared.tx.Pair.{Pair};

    ghost Value = { List Pair };

    ghost view = { λ s. take s.len s.parts };

    ghost use Rattle.std.specs.Prelude.{◌≡◌, length, map};
    ghost use Rattle.gl_model.specs.Kept.{AreVariables};
    ghost use Rattle.gl_model.specs.declared.limits.TheConstants.{TX_VARIABLES};

    ghost invariant = { λ s. (length s.parts ≡ TX_VARIABLES) × (s.len ≤ TX_VARIABLES) × AreVariables (map (λ p. p.var) (take s.len s.parts)) };
}

impl Pairs {
    /// No write.
    pub fn empty() -> Pairs
        ensures { result ≡ [] }
    {
        Pairs {
            parts: [Pair { var: 0, value: 0 }; TX_ROOM],
            len: 0,
        }
    }

    // How many are of variables below this one.
    fn place_of(&self, var: u16) -> usize
        ensures within { result ≤ length self.now }
        ensures below { (k : ℕ) (d : APair) → k < result → (slice_index_or self.now k d).var < var }
        ensures here { (d : APair) → result < length self.now → var ≤ (slice_index_or self.now result d).var }
    {
        let parts = &self.parts[..self.len as usize];
        for (i, part) in parts.iter().enumerate() {
            if var <= part.var {
                return i;
            }
        }
        parts.len()
    }

    /// Puts the write in its place, instead of one of its variable if there is one.
    pub fn put(&mut self, part: Pair) -> Result<(), Full>
        requires { part.var < VARIABLES }
        ensures ok { OnOk result (self.new ≡ with_part (λ p. p.var) part self.old) }
        ensures full { IsErr result ↔ ((length self.old ≡ TX_VARIABLES) × (Contains (map (λ p. p.var) self.old) part.var → ⊥)) }
        ensures err { OnErr result (self.new ≡ self.old) }
    {
        let len = self.len as usize;
        let i = self.place_of(part.var);
        if i < len && self.parts[i].var == part.var {
            self.parts[i] = part;
            return Ok(());
        }
        if self.len == TX_VARIABLES {
            return Err(Full);
        }
        put_among(&mut self.parts, len, i, part);
        self.len += 1;
        Ok(())
    }

    /// The write of the variable.
    pub fn of(&self, var: u16) -> Option<Pair>
        ensures { result ≡ find (λ p. p.var == var) self.now }
    {
        for part in &self.parts[..self.len as usize] {
            if part.var == var {
                return Some(*part);
            }
        }
        None
    }

    /// The write at place i, counted from 0.
    pub fn at(&self, i: usize) -> Option<Pair>
        ensures { result ≡ slice_get self.now i }
    {
        self.parts[..self.len as usize].get(i).copied()
    }

    /// Tells a caller's proof that there are at most `TX_VARIABLES`, that their variables rise, and that each is one that there is.
    pub fn keeps(&self)
        ensures { AreVariables (map (λ p. p.var) self.now) }
    {
        let _len = self.len;
    }
}

/// Numbers, rising by variable.
#[derive(Drop)]
pub struct Numbers {
    parts: [Number; TX_ROOM],
    len: u8,
}

impl Model for Numbers {
    ghost use Rattle.std.specs.Prelude.{List, ◌≤◌, take};
    ghost use Rattle.gl_model.specs.declared.tx.Number.{Number};

    ghost Value = { List Number };

    ghost view = { λ s. take s.len s.parts };

    ghost use Rattle.std.specs.Prelude.{◌≡◌, length, map};
    ghost use Rattle.gl_model.specs.Kept.{AreVariables};
    ghost use Rattle.gl_model.specs.declared.limits.TheConstants.{TX_VARIABLES};

    ghost invariant = { λ s. (length s.parts ≡ TX_VARIABLES) × (s.len ≤ TX_VARIABLES) × AreVariables (map (λ p. p.var) (take s.len s.parts)) };
}

impl Numbers {
    /// No number.
    pub fn empty() -> Numbers
        ensures { result ≡ [] }
    {
        Numbers {
            parts: [Number { var: 0, nth: 0 }; TX_ROOM],
            len: 0,
        }
    }

    // How many are of variables below this one.
    fn place_of(&self, var: u16) -> usize
        ensures within { result ≤ length self.now }
        ensures below { (k : ℕ) (d : ANumber) → k < result → (slice_index_or self.now k d).var < var }
        ensures here { (d : ANumber) → result < length self.now → var ≤ (slice_index_or self.now result d).var }
    {
        let parts = &self.parts[..self.len as usize];
        for (i, part) in parts.iter().enumerate() {
            if var <= part.var {
                return i;
            }
        }
        parts.len()
    }

    /// Puts the number in its place, instead of one of its variable if there is one.
    pub fn put(&mut self, part: Number) -> Result<(), Full>
        requires { part.var < VARIABLES }
        ensures ok { OnOk result (self.new ≡ with_part (λ p. p.var) part self.old) }
        ensures full { IsErr result ↔ ((length self.old ≡ TX_VARIABLES) × (Contains (map (λ p. p.var) self.old) part.var → ⊥)) }
        ensures err { OnErr result (self.new ≡ self.old) }
    {
        let len = self.len as usize;
        let i = self.place_of(part.var);
        if i < len && self.parts[i].var == part.var {
            self.parts[i] = part;
            return Ok(());
        }
        if self.len == TX_VARIABLES {
            return Err(Full);
        }
        put_among(&mut self.parts, len, i, part);
        self.len += 1;
        Ok(())
    }

    /// The number of the variable.
    pub fn of(&self, var: u16) -> Option<Number>
        ensures { result ≡ find (λ p. p.var == var) self.now }
    {
        for part in &self.parts[..self.len as usize] {
            if part.var == var {
                return Some(*part);
            }
        }
        None
    }

    /// The number at place i, counted from 0.
    pub fn at(&self, i: usize) -> Option<Number>
        ensures { result ≡ slice_get self.now i }
    {
        self.parts[..self.len as usize].get(i).copied()
    }

    /// Tells a caller's proof that there are at most `TX_VARIABLES`, that their variables rise, and that each is one that there is.
    pub fn keeps(&self)
        ensures { AreVariables (map (λ p. p.var) self.now) }
    {
        let _len = self.len;
    }
}

/// What an attempt looked at and wrote, and the numbers that its end drew.
#[derive(Drop)]
pub struct Tx {
    pub looks: Looks,
    pub writes: Pairs,
    pub numbers: Numbers,
}

impl Tx {
    /// Tells a caller's proof that each of its lists has at most `TX_VARIABLES` parts, whose variables rise.
    pub fn keeps(&self)
        ensures { IsTxKept self.now }
    {
        self.looks.keeps();
        self.writes.keeps();
        self.numbers.keeps();
    }
}

/// Why an attempt was dropped.
#[derive(Clone, Copy, Debug, PartialEq, Eq)]
pub enum Why {
    Changed { var: u16, read: i64, found: i64 },
    Raised { var: u16 },
}
