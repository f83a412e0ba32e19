// The claims of a record's entries, and their accesses.
ghost use Rattle.std.specs.Prelude.{◌≡◌, ℕ, ◌+◌, ◌++◌, List, IfOk, OnOk, map, length};
ghost use Rattle.gl_model.specs.Entries.{Entry as AnEntry, seen};
ghost use Rattle.gl_raised.specs.Gathers.{AreGathered};
ghost use Rattle.gl_model.specs.Lists.{lists_of};
ghost use Rattle.gl_model.specs.declared.limits.TheConstants.{THREADS};
ghost use Rattle.gl_raised.specs.Accesses.{accesses_of, block_after, claims_of, part_of, tick_after, writes_one};

use crate::access::{Access, Claim};
use gl_model::{Entry, Number, Pairs, Record, THREADS, TX_VARIABLES, Tx, Why};
use gl_places::Place;
use std::alloc::{AllocError, Global};

/// What the entries of a record say of races, by thread and then by place, and their accesses.
#[derive(Drop)]
pub(crate) struct Gathered {
    pub(crate) claims: Vec<Claim>,
    pub(crate) accesses: Vec<Access>,
}

// Who made an access, where its entry stands among the claims, and how many events stood in the list then.
#[derive(Clone, Copy)]
struct Maker {
    claim: usize,
    thread: u8,
    tick: u64,
}

// Whether a transaction writes the variable.
fn writes_one(writes: &Pairs, var: u16) -> bool
    ensures { result ≡ writes_one writes.now var }
{
    writes.of(var).is_some()
}

// The access of one variable of a commit, or of a refused one.
fn part(by: &Maker, writes: &Pairs, number: &Number, performed: bool) -> Access
    ensures { result ≡ part_of by.now.claim by.now.thread by.now.tick performed writes.now number.now }
{
    Access {
        var: number.var,
        nth: number.nth,
        claim: by.claim,
        thread: by.thread,
        tick: by.tick,
        commit: true,
        write: writes_one(writes, number.var),
        performed,
    }
}

// Adds the access of each variable of a commit, or of a refused one.
fn add_parts(
    accesses: &mut Vec<Access>,
    by: &Maker,
    tx: &Tx,
    performed: bool,
) -> Result<(), AllocError>
    ensures { OnOk result (accesses.new.items ≡ accesses.old.items ++ map (part_of by.now.claim by.now.thread by.now.tick performed tx.now.writes) tx.now.numbers) }
{
    tx.numbers.keeps();
    for i in 0..TX_VARIABLES as usize {
        let Some(number) = tx.numbers.at(i) else {
            return Ok(());
        };
        accesses.push(part(by, &tx.writes, &number, performed))?;
    }
    Ok(())
}

// The number of events that stood in the list when a plain access was made in the block.
fn tick_after(block: u64) -> u64
    ensures { result ≡ tick_after block }
{
    block.saturating_add(1)
}

// The block after the entry.
fn block_after(block: u64, entry: &Entry) -> u64
    ensures { result ≡ block_after block (seen entry.now) }
{
    match entry {
        Entry::Sync { at, .. } | Entry::Commit { at, .. } => *at,
        Entry::Plain { .. } | Entry::Abort { .. } | Entry::Trim { .. } | Entry::Over(_) => block,
    }
}

impl Gathered {
    // Adds the accesses of an entry, whose claim will be the next.
    fn add_accesses(&mut self, thread: u8, block: u64, entry: &Entry) -> Result<(), AllocError>
        ensures claims { OnOk result (self.new.claims.items ≡ self.old.claims.items) }
        ensures accesses { OnOk result (self.new.accesses.items ≡ self.old.accesses.items ++ accesses_of (length self.old.claims.items) thread block (seen entry.now)) }
    {
        let claim = self.claims.len();
        let by = Maker {
            claim,
            thread,
            tick: block,
        };
        match entry {
            Entry::Plain {
                var,
                nth,
                write,
                raised,
                ..
            } => {
                self.accesses.push(Access {
                    var: *var,
                    nth: *nth,
                    claim,
                    thread,
                    tick: tick_after(block),
                    commit: false,
                    write: *write,
                    performed: !*raised,
                })?;
                Ok(())
            }
            Entry::Commit { tx, .. } => add_parts(&mut self.accesses, &by, tx, true),
            Entry::Abort { tx, why } => match why {
                Why::Raised { .. } => add_parts(&mut self.accesses, &by, tx, false),
                Why::Changed { .. } => Ok(()),
            },
            Entry::Sync { .. } | Entry::Trim { .. } | Entry::Over(_) => Ok(()),
        }
    }

    // Adds what the entry says of races, where it is an access.
    fn add_claim(&mut self, place: Place, block: u64, entry: &Entry) -> Result<(), AllocError>
        ensures claims { OnOk result (self.new.claims.items ≡ self.old.claims.items ++ claims_of place block (seen entry.now)) }
        ensures accesses { OnOk result (self.new.accesses.items ≡ self.old.accesses.items) }
    {
        let raised = match entry {
            Entry::Plain { var, raised, .. } => { if *raised { Some(*var) } else { None } }
            Entry::Commit { .. } => None,
            Entry::Abort { why, .. } => match why {
                Why::Raised { var } => Some(*var),
                Why::Changed { .. } => return Ok(()),
            },
            Entry::Sync { .. } | Entry::Trim { .. } | Entry::Over(_) => return Ok(()),
        };
        self.claims.push(Claim {
            place,
            block,
            raised,
        })?;
        Ok(())
    }
}

// Adds the entries of a thread's list.
fn add_list(all: &mut Gathered, thread: u8, list: &[Entry]) -> Result<(), AllocError>
    ensures { OnOk result ((R : ℕ → List AnEntry) → R thread ≡ map seen list.now → AreGathered R (record { thread = thread; index = 0 }) all.old.claims.items all.old.accesses.items → AreGathered R (record { thread = thread + 1; index = 0 }) all.new.claims.items all.new.accesses.items) }
{
    let mut block = 0;
    for (index, entry) in list.iter().enumerate() {
        block = block_after(block, entry);
        let place = Place {
            thread,
            index: index as u64,
        };
        all.add_accesses(thread, block, entry)?;
        all.add_claim(place, block, entry)?;
    }
    Ok(())
}

/// The claims of a record's entries, by thread and then by place, and their accesses.
pub(crate) fn gather(alloc: Global, made: &Record) -> Result<Gathered, AllocError>
    ensures { IfOk result (λ all. AreGathered (lists_of made.now) (record { thread = THREADS; index = 0 }) all.claims.items all.accesses.items) }
{
    made.keeps();
    let mut all = Gathered {
        claims: Vec::new(alloc),
        accesses: Vec::new(alloc),
    };
    for thread in 0..THREADS {
        if let Some(list) = made.thread(thread) {
            add_list(&mut all, thread, list)?;
        }
    }
    Ok(all)
}
