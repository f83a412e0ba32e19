ghost use Rattle.std.specs.Prelude.{◌≡◌, ◌++◌, IfOk, List, codes, count_by, map, option_to_list, string_bytes, Some, ℕ, ℤ};
ghost use Rattle.std.specs.Fmt.{decimal, signed_decimal};
ghost use Rattle.std.specs.List.{flat_map};
ghost use Rattle.gl_model.specs.Entries.{Entry as SeenEntry, seen};
ghost use Rattle.gl_model.specs.Report.{entry_prints, is_commit, last_or_zero, line_of, summary_of};
ghost use Rattle.gl_report.specs.ByThread.{by_thread};
ghost use Rattle.gl_report.specs.Summary.{prints_at};

use crate::entries::entries_of;
use crate::page::races;
use crate::prints::firsts;
use gl_model::{Act, Entry, Record};
use std::alloc::{AllocError, Global};

// The value that the entry prints, if it does.
fn printed(entry: &Entry) -> Option<i64>
    ensures { option_to_list result ≡ entry_prints (Some (seen entry.now)) }
{
    match entry {
        Entry::Sync {
            act: Act::Print,
            value,
            ..
        } => Some(*value),
        _ => None,
    }
}

// The last value that is printed, where the entry comes after others and `before` was the last so far.
fn last_after(before: i64, entry: &Entry) -> i64
    ensures { (values : List ℤ) → before ≡ last_or_zero values → result ≡ last_or_zero (values ++ entry_prints (Some (seen entry.now))) }
{
    match printed(entry) {
        Some(value) => value,
        None => before,
    }
}

// The last value that these print, or 0 where they print none.
fn total(firsts: &[Option<&Entry>]) -> i64
    ensures { result ≡ last_or_zero (flat_map (prints_at (λ e. seen e.now)) firsts.now) }
{
    let mut total = 0;
    for first in firsts {
        if let Some(entry) = first {
            total = last_after(total, entry);
        }
    }
    total
}

// Is the entry a commit?
fn is_commit(entry: &Entry) -> bool
    ensures { result ≡ is_commit (seen entry.now) }
{
    matches!(entry, Entry::Commit { .. })
}

// How many of them are commits.
fn commits(entries: &[(u8, &Entry)]) -> usize
    ensures { result ≡ count_by (λ p. is_commit (seen p.1.now)) entries.now }
{
    entries.iter().filter(|(_, entry)| is_commit(entry)).count()
}

// The text of a summary.
fn text_of(alloc: Global, total: i64, commits: usize, races: usize) -> Result<String, AllocError>
    ensures { IfOk result (λ text. string_bytes text ≡ line_of (codes "total " ++ signed_decimal total) ++ (line_of (codes "commits " ++ decimal commits) ++ line_of (codes "races " ++ decimal races))) }
{
    let mut text = String::new(alloc);
    writeln!(text, "total {total}")?;
    writeln!(text, "commits {commits}")?;
    writeln!(text, "races {races}")?;
    Ok(text)
}

/// The summary of a record whose entries these are: the value that was printed last in the order of the list of events, or 0 where none
/// was; how many commits there are; and how many races. The only error is want of memory.
pub fn summary_of_entries(alloc: Global, entries: &[(u8, &Entry)]) -> Result<String, AllocError>
    ensures { (made : List (ℕ × List SeenEntry)) → map (λ p. (p.0, seen p.1.now)) entries.now ≡ by_thread made → IfOk result (λ text. string_bytes text ≡ summary_of made) }
{
    let firsts = firsts(alloc, entries)?;
    let total = total(&firsts);
    let commits = commits(entries);
    let races = races(entries);
    text_of(alloc, total, commits, races)
}

/// The summary of a record. The only error is want of memory.
pub fn summary(alloc: Global, made: &Record) -> Result<String, AllocError>
    ensures { IfOk result (λ text. string_bytes text ≡ summary_of made.now) }
{
    let entries = entries_of(alloc, made)?;
    summary_of_entries(alloc, &entries)
}
