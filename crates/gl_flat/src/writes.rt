// The performed writes of a record, sorted, so that the word below a number is found by search.
ghost use Rattle.std.specs.Prelude.{◌≡◌, ◌++◌, IfOk, IsSorted, MatchBool, OnOk};
ghost use Rattle.std.specs.List.{flat_map};
ghost use Rattle.gl_model.specs.Entries.{seen};
ghost use Rattle.gl_model.specs.Flat.{IsWordBelow};
ghost use Rattle.gl_model.specs.Lists.{lists_of};
ghost use Rattle.gl_model.specs.Records.{Lists};
ghost use Rattle.gl_flat.specs.Below.{AreWrites, with_number, written_by, written_in};
ghost use Rattle.gl_flat.specs.Sorted.{written_cmp};

use crate::walk::list_of;
use gl_model::{Entry, Number, Pair, Record, THREADS, TX_VARIABLES, Tx};
use std::alloc::{AllocError, Global};

const MOST_PARTS: usize = TX_VARIABLES as usize;

/// What a performed write wrote: its variable, its number there, and the value.
#[derive(Clone, Copy, Debug, PartialEq, Eq, PartialOrd, Ord)]
pub struct Written {
    pub var: u16,
    pub nth: u64,
    pub value: i64,
}

// Adds a write, if its transaction drew a number on its variable.
fn add_numbered(
    writes: &mut Vec<Written>,
    write: Pair,
    number: Option<Number>,
) -> Result<(), AllocError>
    ensures { OnOk result (writes.new.items ≡ writes.old.items ++ with_number write number) }
{
    if let Some(number) = number {
        writes.push(Written {
            var: write.var,
            nth: number.nth,
            value: write.value,
        })?;
    }
    Ok(())
}

// Adds the writes of a transaction, with their numbers.
fn add_writes(writes: &mut Vec<Written>, tx: &Tx) -> Result<(), AllocError>
    ensures { OnOk result (writes.new.items ≡ writes.old.items ++ written_in tx.now.numbers tx.now.writes) }
{
    tx.writes.keeps();
    for i in 0..MOST_PARTS {
        let Some(write) = tx.writes.at(i) else {
            return Ok(());
        };
        add_numbered(writes, write, tx.numbers.of(write.var))?;
    }
    Ok(())
}

// Adds the performed writes of an entry.
fn add_entry(writes: &mut Vec<Written>, entry: &Entry) -> Result<(), AllocError>
    ensures { OnOk result (writes.new.items ≡ writes.old.items ++ written_by (seen entry.now)) }
{
    match entry {
        Entry::Plain {
            var,
            nth,
            write: true,
            value,
            raised: false,
            ..
        } => {
            writes.push(Written {
                var: *var,
                nth: *nth,
                value: *value,
            })?;
        }
        Entry::Commit { tx, .. } => add_writes(writes, tx)?,
        Entry::Plain { .. }
        | Entry::Sync { .. }
        | Entry::Abort { .. }
        | Entry::Trim { .. }
        | Entry::Over(_) => {}
    }
    Ok(())
}

// Adds the performed writes of a thread's list.
fn add_list(writes: &mut Vec<Written>, entries: &[Entry]) -> Result<(), AllocError>
    ensures { OnOk result (writes.new.items ≡ writes.old.items ++ flat_map (λ e. written_by (seen e)) entries.now) }
{
    for entry in entries {
        add_entry(writes, entry)?;
    }
    Ok(())
}

/// The performed writes of a record, sorted by variable, then by number, then by value.
pub fn writes_of(alloc: Global, made: &Record) -> Result<Vec<Written>, AllocError>
    ensures all { IfOk result (λ writes. AreWrites (lists_of made.now) writes.items) }
    ensures sorted { IfOk result (λ writes. IsSorted written_cmp writes.items) }
{
    made.keeps();
    let mut writes = Vec::new(alloc);
    for thread in 0..THREADS {
        add_list(&mut writes, list_of(made, thread))?;
    }
    writes.sort()?;
    Ok(writes)
}

/// Is the value that of the greatest number below this one on the variable, or 0 where there is none below?
pub fn is_word_below(writes: &[Written], var: u16, nth: u64, value: i64) -> bool
    requires { IsSorted written_cmp writes.now }
    ensures { (R : Lists) → AreWrites R writes.now → MatchBool result (IsWordBelow R var nth value) (IsWordBelow R var nth value → ⊥) }
{
    let end = writes.partition_point(|w| w.var < var || (w.var == var && w.nth < nth));
    if end == 0 {
        return value == 0;
    }
    let last = writes[end - 1];
    if last.var != var {
        return value == 0;
    }
    writes
        .binary_search(&Written {
            var,
            nth: last.nth,
            value,
        })
        .is_ok()
}
