ghost use Rattle.std.specs.Prelude.{◌≡◌, ◌++◌, IfOk, OnOk, map};
ghost use Rattle.gl_model.specs.Entries.{seen};
ghost use Rattle.gl_model.specs.Report.{all_entries};
ghost use Rattle.gl_report.specs.ByThread.{by_thread, with_thread};

use gl_model::{Entry, Record, THREADS};
use std::alloc::{AllocError, Global};

// Adds the entries of a thread's list.
fn add_list<'a>(
    entries: &mut Vec<(u8, &'a Entry)>,
    thread: u8,
    list: &'a [Entry],
) -> Result<(), AllocError>
    ensures { OnOk result (map (λ p. (p.0, seen p.1.now)) entries.new.items ≡ map (λ p. (p.0, seen p.1.now)) entries.old.items ++ with_thread (thread, map seen list.now)) }
{
    for entry in list {
        entries.push((thread, entry))?;
    }
    Ok(())
}

/// The entries of all threads, each with its thread: by thread, and then by place. The only error is want of memory.
pub fn entries_of(alloc: Global, made: &Record) -> Result<Vec<(u8, &Entry)>, AllocError>
    ensures by_thread { IfOk result (λ entries. map (λ p. (p.0, seen p.1.now)) entries.items ≡ by_thread made.now) }
    ensures all { IfOk result (λ entries. map (λ p. seen p.1.now) entries.items ≡ all_entries made.now) }
{
    made.keeps();
    let mut entries = Vec::new(alloc);
    for thread in 0..THREADS {
        if let Some(list) = made.thread(thread) {
            add_list(&mut entries, thread, list)?;
        }
    }
    Ok(entries)
}
