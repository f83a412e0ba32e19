ghost use Rattle.std.specs.Prelude.{◌≡◌, ◌==◌, ◌++◌, ◌∷◌, [], ℕ, ◌<◌, IfOk, MatchOption, OnOk, List, if◌then◌else◌, map, slice_index_or};
ghost use Rattle.gl_model.specs.Entries.{seen as seen_entry};
ghost use Rattle.gl_model.specs.Kept.{IsEntryKept, IsListKept};
ghost use Rattle.gl_model.specs.Records.{Place as SeenPlace};
ghost use Rattle.gl_model.specs.declared.limits.TheConstants.{VARIABLES};
ghost use Rattle.gl_places.specs.Places.{Before, IsFirstBy, seen};
ghost use Rattle.gl_places.specs.Uses.{uses_from};
ghost use Rattle.gl_listing.specs.Looking.{AreInOrder, IsAdded, OneFailsAt};
ghost use Rattle.gl_listing.specs.Numbering.{draws_of, draws_on, end_draws, look_draws};

use crate::wrong::{earlier, first_wrong};
use gl_model::{Entry, Looks, Numbers, Record, THREADS, TX_VARIABLES, Tx, VARIABLES};
use gl_places::{Place, Use};
use std::alloc::{AllocError, Global};
use std::marker::Model;

// The numbers that were drawn on each variable, by thread and then by place.
#[derive(Drop)]
pub(crate) struct Draws {
    lists: Vec<Vec<Use>>,
}

impl Model for Draws {
    ghost use Rattle.std.specs.Prelude.{◌≡◌, List, length, map};
    ghost use Rattle.gl_model.specs.declared.limits.TheConstants.{VARIABLES};
    ghost use Rattle.gl_places.specs.Uses.{Use as SeenUse, use_seen};

    ghost Value = { List (List SeenUse) };

    ghost view = { λ d. map (λ l. map use_seen l.items) d.lists.items };

    ghost invariant = { λ d. length d.lists.items ≡ VARIABLES };
}

impl Draws {
    // No draw.
    fn none(alloc: Global) -> Result<Draws, AllocError>
        ensures { IfOk result (λ draws. (x : ℕ) → slice_index_or draws x [] ≡ []) }
    {
        let mut lists = Vec::new(alloc);
        for _ in 0..VARIABLES {
            lists.push(Vec::new(alloc))?;
        }
        Ok(Draws { lists })
    }

    // Adds that the entry there drew this number on the variable.
    fn add(&mut self, var: u16, place: Place, number: u64) -> Result<(), AllocError>
        requires { var < VARIABLES }
        ensures { OnOk result (IsAdded (seen place) (λ x. if var == x then number ∷ [] else []) self.old self.new) }
    {
        self.lists[var as usize].push(Use { place, number })?;
        Ok(())
    }

    // Adds what these looks drew.
    fn add_looks(&mut self, place: Place, looks: &Looks) -> Result<(), AllocError>
        ensures { OnOk result (IsAdded (seen place) (λ x. look_draws x looks.now) self.old self.new) }
    {
        looks.keeps();
        for i in 0..usize::from(TX_VARIABLES) {
            let Some(look) = looks.at(i) else {
                return Ok(());
            };
            self.add(look.var, place, look.nth)?;
        }
        Ok(())
    }

    // Adds what the end of an attempt drew.
    fn add_numbers(&mut self, place: Place, numbers: &Numbers) -> Result<(), AllocError>
        ensures { OnOk result (IsAdded (seen place) (λ x. end_draws x numbers.now) self.old self.new) }
    {
        numbers.keeps();
        for i in 0..usize::from(TX_VARIABLES) {
            let Some(number) = numbers.at(i) else {
                return Ok(());
            };
            self.add(number.var, place, number.nth)?;
        }
        Ok(())
    }

    // Adds what the looks of an attempt and its end drew.
    fn add_tx(&mut self, place: Place, tx: &Tx) -> Result<(), AllocError>
        ensures { OnOk result (IsAdded (seen place) (λ x. look_draws x tx.now.looks ++ end_draws x tx.now.numbers) self.old self.new) }
    {
        self.add_looks(place, &tx.looks)?;
        self.add_numbers(place, &tx.numbers)
    }

    // Adds what the entry drew.
    fn add_entry(&mut self, place: Place, entry: &Entry) -> Result<(), AllocError>
        requires { IsEntryKept (seen_entry entry.now) }
        ensures { OnOk result (IsAdded (seen place) (λ x. draws_on x (seen_entry entry.now)) self.old self.new) }
    {
        match entry {
            Entry::Plain {
                cached: false,
                var,
                nth,
                ..
            } => self.add(*var, place, *nth),
            Entry::Commit { tx, .. } | Entry::Abort { tx, .. } => self.add_tx(place, tx),
            Entry::Plain { .. } | Entry::Sync { .. } | Entry::Trim { .. } | Entry::Over(_) => Ok(
                (),
            ),
        }
    }

    // Adds what the entries of a thread's list drew.
    fn add_list(&mut self, thread: u8, list: &[Entry]) -> Result<(), AllocError>
        requires { IsListKept (thread, map seen_entry list.now) }
        ensures { OnOk result ((x : ℕ) → slice_index_or self.new x [] ≡ slice_index_or self.old x [] ++ uses_from (draws_on x) thread 0 (map seen_entry list.now)) }
    {
        for (i, entry) in list.iter().enumerate() {
            let index = i as u64;
            self.add_entry(Place { thread, index }, entry)?;
        }
        Ok(())
    }

    // The draws of a record.
    pub(crate) fn of(alloc: Global, made: &Record) -> Result<Draws, AllocError>
        ensures { IfOk result (λ draws. (x : ℕ) → slice_index_or draws x [] ≡ draws_of x made.now) }
    {
        made.keeps();
        let mut draws = Draws::none(alloc)?;
        for thread in 0..THREADS {
            if let Some(list) = made.thread(thread) {
                draws.add_list(thread, list)?;
            }
        }
        Ok(draws)
    }

    // The first place that drew a wrong number on some variable.
    pub(crate) fn first_wrong(&self, alloc: Global) -> Result<Option<Place>, AllocError>
        requires { (x : ℕ) → AreInOrder (slice_index_or self.now x []) }
        ensures { IfOk result (λ found. MatchOption found ((c : SeenPlace) → OneFailsAt self.now c → ⊥) (λ c. IsFirstBy Before (OneFailsAt self.now) (seen c))) }
    {
        let mut first = None;
        for list in &self.lists {
            let found = first_wrong(alloc, list)?;
            first = earlier(first, found);
        }
        Ok(first)
    }
}
