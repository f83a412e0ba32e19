// A thread's own list, with what follows from its entries.
ghost use Rattle.std.specs.Prelude.{◌≡◌, ◌≤◌, ◌<◌, ◌-◌, ◌++◌, ◌∷◌, [], map, IfOk, OnOk, OnErr};
ghost use Rattle.gl_model.specs.Entries.{seen};
ghost use Rattle.gl_model.specs.Kept.{IsEntryKept};
ghost use Rattle.gl_rule.specs.Levels.{levels_of, AreLeastEntered};
ghost use Rattle.gl_table.specs.RightOf.{right_of};

use crate::levels::Levels;
use crate::rights::Rights;
use gl_model::{Entry, Held, VARIABLES};
use std::alloc::{AllocError, Global};
use std::marker::Model;

/// What a thread has stored, with the levels of its monitors and the rights on variables.
#[derive(Drop)]
pub struct OwnList {
    list: Vec<Entry>,
    levels: Levels,
    rights: Rights,
}

impl Model for OwnList {
    ghost use Rattle.gl_table.specs.Stored.{Stored};

    ghost Value = { Stored };

    ghost use Rattle.gl_table.specs.StoredInside.{stored_view, IsStored};

    ghost view = { stored_view };

    ghost invariant = { IsStored };
}

impl OwnList {
    /// No entry.
    pub fn empty(alloc: Global) -> Result<OwnList, AllocError>
        ensures { IfOk result (λ l. l ≡ record { entries = []; spare = 0 }) }
    {
        Ok(OwnList {
            list: Vec::new(alloc),
            levels: Levels::none(alloc)?,
            rights: Rights::none(alloc)?,
        })
    }

    /// The entries, the first one first.
    pub fn entries(&self) -> &[Entry]
        ensures { map seen result.now ≡ self.now.entries }
    {
        self.list.as_slice()
    }

    /// The entries.
    pub fn into_entries(self) -> Vec<Entry>
        ensures { map seen result.items ≡ self.entries }
    {
        self.list
    }

    /// The least monitors that the thread is in, as many as are kept.
    pub fn monitors(&self) -> Held
        ensures { AreLeastEntered (levels_of self.now.entries) result }
    {
        self.levels.least()
    }

    /// Number and kind of the access of the variable that may be repeated.
    pub fn right(&self, var: u16) -> Option<(u64, bool)>
        ensures { result ≡ right_of self.now.entries var }
    {
        let rights = &self.rights;
        if var >= VARIABLES {
            return None;
        }
        rights.on(var)
    }

    /// Makes room for so many entries more.
    pub fn reserve(&mut self, additional: usize) -> Result<(), AllocError>
        ensures spare { OnOk result (additional ≤ self.new.spare) }
        ensures entries { self.new.entries ≡ self.old.entries }
        ensures err { OnErr result (self.new ≡ self.old) }
    {
        self.list.reserve(additional)
    }

    /// Stores the entry, for which there is room.
    pub fn push(&mut self, entry: Entry)
        requires spare { 0 < self.old.spare }
        requires kept { IsEntryKept (seen entry) }
        ensures entries { self.new.entries ≡ self.old.entries ++ seen entry ∷ [] }
        ensures spare { self.new.spare ≡ self.old.spare - 1 }
    {
        self.levels.note(&entry);
        self.rights.note(&entry);
        self.list.push_reserved(entry);
    }
}
