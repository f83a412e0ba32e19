ghost use Rattle.std.specs.Prelude.{◌≡◌, ◌<◌, ◌≤◌, ℕ, ℤ, MatchOption, IfOk, length, replicate};
ghost use Rattle.std.specs.Option.{option_map};
ghost use Rattle.gl_model.specs.declared.limits.TheConstants.{VARIABLES};
ghost use Rattle.gl_cache.specs.Slots.{no_slot};
ghost use Rattle.gl_cache.specs.Words.{IsChanged, cleaned, no_words, with_word, word_at};

use crate::bits::VarBits;
use gl_model::VARIABLES;
use std::alloc::{AllocError, Global};
use std::marker::Model;

// The place of a variable's word, which counts where it has the stamp of the cache.
#[derive(Clone, Copy)]
pub(crate) struct Slot {
    pub(crate) stamp: u64,
    pub(crate) value: i64,
    pub(crate) dirty: bool,
}

const SLOTS: usize = VARIABLES as usize;

/// The words that a thread has to itself until its next event. Their memory is taken when it is made.
#[derive(Drop)]
pub struct WordCache {
    slots: Vec<Slot>,
    // Words of an earlier stamp are dropped.
    stamp: u64,
    // The variables whose words were changed.
    changed: VarBits,
}

impl Model for WordCache {
    ghost use Rattle.gl_cache.specs.Words.{Words};
    ghost use Rattle.gl_cache.specs.CacheInside.{words_of, IsCache};

    ghost Value = { Words };

    ghost view = { words_of };

    ghost invariant = { IsCache };
}

fn empty_slot() -> Slot
    ensures { result ≡ no_slot }
{
    Slot {
        stamp: 0,
        value: 0,
        dirty: false,
    }
}

fn no_slots(alloc: Global) -> Result<Vec<Slot>, AllocError>
    ensures { IfOk result (λ v. v.items ≡ replicate VARIABLES no_slot) }
{
    let mut slots = Vec::with_capacity(alloc, SLOTS)?;
    for _ in 0..SLOTS {
        slots.push_reserved(empty_slot());
    }
    Ok(slots)
}

// Empties all places.
fn wipe(slots: &mut Vec<Slot>)
    requires long { length slots.old.items ≡ VARIABLES }
    ensures { slots.new.items ≡ replicate VARIABLES no_slot }
{
    for i in 0..SLOTS {
        slots[i] = empty_slot();
    }
}

impl WordCache {
    /// No word.
    pub fn new(alloc: Global) -> Result<WordCache, AllocError>
        ensures { IfOk result (λ s. s ≡ no_words) }
    {
        Ok(WordCache {
            slots: no_slots(alloc)?,
            stamp: 1,
            changed: VarBits::none(),
        })
    }

    /// The word of the variable.
    pub fn find(&self, var: u16) -> Option<i64>
        requires { var < VARIABLES }
        ensures { result ≡ option_map (λ w. w.value) (word_at self.now var) }
    {
        let slot = self.slots[var as usize];
        if slot.stamp == self.stamp {
            Some(slot.value)
        } else {
            None
        }
    }

    /// Puts a word in place of that of its variable.
    pub fn put(&mut self, var: u16, value: i64, dirty: bool)
        requires { var < VARIABLES }
        ensures { self.new ≡ with_word var (record { value = value; dirty = dirty }) self.old }
    {
        self.slots[var as usize] = Slot {
            stamp: self.stamp,
            value,
            dirty,
        };
        if dirty {
            self.changed.add(var);
        } else {
            self.changed.remove(var);
        }
    }

    /// The changed word of the least variable.
    pub fn next_dirty(&self) -> Option<(u16, i64)>
        ensures { MatchOption result ((x : ℕ) (a : ℤ) → IsChanged self.now x a → ⊥) (λ r. (r.0 < VARIABLES) × IsChanged self.now r.0 r.1 × ((x : ℕ) (a : ℤ) → IsChanged self.now x a → r.0 ≤ x)) }
    {
        match self.changed.least() {
            Some(var) => {
                let slot = self.slots[var as usize];
                Some((var, slot.value))
            }
            None => None,
        }
    }

    /// The word of the variable counts as unchanged.
    pub fn clean(&mut self, var: u16)
        requires { var < VARIABLES }
        ensures { self.new ≡ cleaned var self.old }
    {
        let mut slot = self.slots[var as usize];
        slot.dirty = false;
        self.slots[var as usize] = slot;
        self.changed.remove(var);
    }

    /// No word any more.
    pub fn clear(&mut self)
        ensures { self.new ≡ no_words }
    {
        self.changed = VarBits::none();
        if self.stamp == u64::MAX {
            wipe(&mut self.slots);
            self.stamp = 1;
        } else {
            self.stamp += 1;
        }
    }
}
