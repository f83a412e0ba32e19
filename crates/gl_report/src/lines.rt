ghost use Rattle.std.specs.Prelude.{◌≡◌, ◌++◌, OnOk, string_bytes};
ghost use Rattle.gl_model.specs.Entries.{seen};
ghost use Rattle.gl_report.specs.Lines.{ended_lines, is_raised, out_lines, raced_lines};

use gl_model::{Act, Ending, Entry, Why};
use std::alloc::AllocError;

// Adds the line of what the entry prints, if it does.
pub(crate) fn put_out(out: &mut String, entry: &Entry) -> Result<(), AllocError>
    ensures { OnOk result (string_bytes out.new ≡ string_bytes out.old ++ out_lines (seen entry.now)) }
{
    match entry {
        Entry::Sync {
            act: Act::Print,
            value,
            ..
        } => { writeln!(out, "out {value}") }
        _ => Ok(()),
    }
}

// Adds the line of an entry that was refused for a race.
pub(crate) fn put_race(out: &mut String, thread: u8, entry: &Entry) -> Result<(), AllocError>
    ensures { OnOk result (string_bytes out.new ≡ string_bytes out.old ++ raced_lines thread (seen entry.now)) }
{
    match entry {
        Entry::Plain {
            var,
            write: true,
            raised: true,
            ..
        } => writeln!(out, "race {thread} {var} write"),
        Entry::Plain {
            var,
            write: false,
            raised: true,
            ..
        } => writeln!(out, "race {thread} {var} read"),
        Entry::Abort {
            why: Why::Raised { var },
            ..
        } => { writeln!(out, "race {thread} {var} commit") }
        _ => Ok(()),
    }
}

// Adds the line of the entry that ends the list.
pub(crate) fn put_end(out: &mut String, thread: u8, entry: &Entry) -> Result<(), AllocError>
    ensures { OnOk result (string_bytes out.new ≡ string_bytes out.old ++ ended_lines thread (seen entry.now)) }
{
    match entry {
        Entry::Over(Ending::Halt) => writeln!(out, "end {thread} halt"),
        Entry::Over(Ending::Spent) => writeln!(out, "end {thread} spent"),
        Entry::Over(Ending::Uncaught(code)) => writeln!(out, "end {thread} uncaught {code}"),
        _ => Ok(()),
    }
}

/// Was the entry, an access or an attempt, refused for a race?
pub fn is_raised(entry: &Entry) -> bool
    ensures { result ≡ is_raised (seen entry.now) }
{
    matches!(
        entry,
        Entry::Plain { raised: true, .. }
            | Entry::Abort {
                why: Why::Raised { .. },
                ..
            }
    )
}
