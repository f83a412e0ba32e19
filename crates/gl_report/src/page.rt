ghost use Rattle.std.specs.Prelude.{◌≡◌, ◌++◌, ℕ, List, IfOk, OnOk, string_bytes, count_by, map};
ghost use Rattle.std.specs.List.{flat_map};
ghost use Rattle.gl_model.specs.Entries.{Entry as SeenEntry, seen};
ghost use Rattle.gl_model.specs.Report.{report_of};
ghost use Rattle.gl_report.specs.ByThread.{by_thread};
ghost use Rattle.gl_report.specs.Lines.{ended_lines, is_raised, raced_lines};

use crate::entries::entries_of;
use crate::lines::{is_raised, put_end, put_race};
use crate::prints::{firsts, put_outs};
use gl_model::{Entry, Record};
use std::alloc::{AllocError, Global};

// How many of them were refused for a race.
pub(crate) fn races(entries: &[(u8, &Entry)]) -> usize
    ensures { result ≡ count_by (λ p. is_raised (seen p.1.now)) entries.now }
{
    entries.iter().filter(|(_, entry)| is_raised(entry)).count()
}

// Adds the lines of those that were refused for a race.
fn put_races(out: &mut String, entries: &[(u8, &Entry)]) -> Result<(), AllocError>
    ensures { OnOk result (string_bytes out.new ≡ string_bytes out.old ++ flat_map (λ p. raced_lines p.0 (seen p.1.now)) entries.now) }
{
    for (thread, entry) in entries {
        put_race(out, *thread, entry)?;
    }
    Ok(())
}

// Adds the lines of those that end a list.
fn put_ends(out: &mut String, entries: &[(u8, &Entry)]) -> Result<(), AllocError>
    ensures { OnOk result (string_bytes out.new ≡ string_bytes out.old ++ flat_map (λ p. ended_lines p.0 (seen p.1.now)) entries.now) }
{
    for (thread, entry) in entries {
        put_end(out, *thread, entry)?;
    }
    Ok(())
}

/// The report of a record whose entries these are: what was printed, in the order of the list of events; the accesses and attempts
/// that were refused and how the threads ended, by thread; and how many races there were. The only error is want of memory.
pub fn report_of_entries(alloc: Global, entries: &[(u8, &Entry)]) -> Result<String, AllocError>
    ensures { (made : List (ℕ × List SeenEntry)) → map (λ p. (p.0, seen p.1.now)) entries.now ≡ by_thread made → IfOk result (λ text. string_bytes text ≡ report_of made) }
{
    let firsts = firsts(alloc, entries)?;
    let races = races(entries);
    let mut out = String::new(alloc);
    put_outs(&mut out, &firsts)?;
    put_races(&mut out, entries)?;
    put_ends(&mut out, entries)?;
    writeln!(out, "races {races}")?;
    Ok(out)
}

/// The report of a record. The only error is want of memory.
pub fn report(alloc: Global, made: &Record) -> Result<String, AllocError>
    ensures { IfOk result (λ text. string_bytes text ≡ report_of made.now) }
{
    let entries = entries_of(alloc, made)?;
    report_of_entries(alloc, &entries)
}
