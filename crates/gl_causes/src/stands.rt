// The entries of a record, laid out: each with its place and its block.
ghost use Rattle.std.specs.Prelude.{◌≡◌, ◌+◌, ℕ, List, IfOk, OnOk, map};
ghost use Rattle.gl_causes.specs.Stands.{AreStands, stand_seen};
ghost use Rattle.gl_raised.specs.Accesses.{block_after};
ghost use Rattle.gl_model.specs.Entries.{Entry as AnEntry, seen};
ghost use Rattle.gl_model.specs.Lists.{lists_of};
ghost use Rattle.gl_model.specs.declared.limits.TheConstants.{THREADS};

use gl_model::{Entry, Record, THREADS};
use gl_places::Place;
use std::alloc::{AllocError, Global};

// The block after the entry.
fn block_after(block: u64, entry: &Entry) -> u64
    ensures { result ≡ block_after block (seen entry.now) }
{
    match entry {
        Entry::Sync { at, .. } | Entry::Commit { at, .. } => *at,
        Entry::Plain { .. } | Entry::Abort { .. } | Entry::Trim { .. } | Entry::Over(_) => block,
    }
}

// Adds the entries of a thread's list.
fn add_list<'a>(
    stands: &mut Vec<(Place, u64, &'a Entry)>,
    thread: u8,
    list: &'a [Entry],
) -> Result<(), AllocError>
    ensures { OnOk result ((R : ℕ → List AnEntry) → R thread ≡ map seen list.now → AreStands R (record { thread = thread; index = 0 }) (map stand_seen stands.old.items) → AreStands R (record { thread = thread + 1; index = 0 }) (map stand_seen stands.new.items)) }
{
    let mut block = 0;
    for (index, entry) in list.iter().enumerate() {
        block = block_after(block, entry);
        let place = Place {
            thread,
            index: index as u64,
        };
        stands.push((place, block, entry))?;
    }
    Ok(())
}

/// The entries of a record, by thread and then by place, each with its place and its block.
pub(crate) fn stands_of(
    alloc: Global,
    made: &Record,
) -> Result<Vec<(Place, u64, &Entry)>, AllocError>
    ensures { IfOk result (λ stands. AreStands (lists_of made.now) (record { thread = THREADS; index = 0 }) (map stand_seen stands.items)) }
{
    made.keeps();
    let mut stands = Vec::new(alloc);
    for thread in 0..THREADS {
        if let Some(list) = made.thread(thread) {
            add_list(&mut stands, thread, list)?;
        }
    }
    Ok(stands)
}
