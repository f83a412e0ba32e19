// The text of an explanation.
ghost use Rattle.std.specs.Prelude.{◌≡◌, ◌++◌, OnOk, string_bytes};
ghost use Rattle.std.specs.List.{flat_map};
ghost use Rattle.gl_names.specs.Names.{name_of};
ghost use Rattle.gl_explain.specs.Texts.{others_text, monitor_text, monitors_text, owned_text, did_text, handed_text, last_text, learnt_text, lines_text, facts_text, explanation_text, ending_text};

use crate::phrases::{push_number, push_racing, push_thing, push_thread, push_told_line};
use crate::told::{Explanation, Told};
use gl_names::{Kind, Names};
use itoa::Buffer;
use std::alloc::AllocError;

fn push_others(out: &mut String, others: usize) -> Result<(), AllocError>
    ensures { OnOk result (string_bytes out.new ≡ string_bytes out.old ++ others_text others) }
{
    if others == 0 {
        return Ok(());
    }
    out.push_str("  earlier lines that it races with too: ")?;
    out.push_str(Buffer::new().format(others))?;
    out.push_str("\n")
}

// Each monitor behind the first.
fn push_more(out: &mut String, names: &Names<'_>, monitors: &[u16]) -> Result<(), AllocError>
    ensures { OnOk result (string_bytes out.new ≡ string_bytes out.old ++ flat_map (monitor_text (name_of names.now)) monitors.now) }
{
    for monitor in monitors {
        push_thing(out, ", monitor ", names, Kind::Monitor, *monitor)?;
    }
    Ok(())
}

fn push_monitors(out: &mut String, names: &Names<'_>, monitors: &[u16]) -> Result<(), AllocError>
    ensures { OnOk result (string_bytes out.new ≡ string_bytes out.old ++ monitors_text (name_of names.now) monitors.now) }
{
    match monitors {
        [] => out.push_str("no monitor"),
        [first, more @ ..] => {
            push_thing(out, "monitor ", names, Kind::Monitor, *first)?;
            push_more(out, names, more)
        }
    }
}

fn push_owned(
    out: &mut String,
    names: &Names<'_>,
    told: &Told,
    monitors: &[u16],
) -> Result<(), AllocError>
    ensures { OnOk result (string_bytes out.new ≡ string_bytes out.old ++ owned_text (name_of names.now) told.now monitors.now) }
{
    push_number(out, "  in line ", told.line)?;
    push_thread(out, " thread ", names, told.thread)?;
    out.push_str(" owns ")?;
    push_monitors(out, names, monitors)?;
    out.push_str("\n")
}

// What was done in the line.
fn push_did(out: &mut String, names: &Names<'_>, told: &Told) -> Result<(), AllocError>
    ensures { OnOk result (string_bytes out.new ≡ string_bytes out.old ++ did_text (name_of names.now) told.now) }
{
    push_thread(out, "  what thread ", names, told.thread)?;
    push_number(out, " did in line ", told.line)
}

fn push_handed(
    out: &mut String,
    names: &Names<'_>,
    told: &Told,
    handed: &Option<Told>,
) -> Result<(), AllocError>
    ensures { OnOk result (string_bytes out.new ≡ string_bytes out.old ++ handed_text (name_of names.now) told.now handed.now) }
{
    push_did(out, names, told)?;
    match handed {
        None => out.push_str(" is handed on in no later line\n"),
        Some(found) => {
            out.push_str(" is first handed on in ")?;
            push_told_line(out, names, found)
        }
    }
}

// The last line of the thread that leads to the line.
fn push_last(out: &mut String, names: &Names<'_>, thread: u8, told: &Told) -> Result<(), AllocError>
    ensures { OnOk result (string_bytes out.new ≡ string_bytes out.old ++ last_text (name_of names.now) thread told.now) }
{
    push_thread(out, "  the last line of thread ", names, thread)?;
    push_number(out, " that leads to line ", told.line)
}

fn push_learnt(
    out: &mut String,
    names: &Names<'_>,
    thread: u8,
    told: &Told,
    learnt: &Option<Told>,
) -> Result<(), AllocError>
    ensures { OnOk result (string_bytes out.new ≡ string_bytes out.old ++ learnt_text (name_of names.now) thread told.now learnt.now) }
{
    match learnt {
        None => {
            push_thread(out, "  no line of thread ", names, thread)?;
            push_number(out, " leads to line ", told.line)?;
            out.push_str("\n")
        }
        Some(found) => {
            push_last(out, names, thread, told)?;
            out.push_str(" is ")?;
            push_told_line(out, names, found)
        }
    }
}

// The two lines that race.
fn push_lines(out: &mut String, names: &Names<'_>, e: &Explanation) -> Result<(), AllocError>
    ensures { OnOk result (string_bytes out.new ≡ string_bytes out.old ++ lines_text (name_of names.now) e.now) }
{
    push_racing(out, names, e.var, &e.at)?;
    out.push_str("\n  races with ")?;
    push_racing(out, names, e.var, &e.other)?;
    out.push_str("\n")
}

// What is said of them.
fn push_facts(out: &mut String, names: &Names<'_>, e: &Explanation) -> Result<(), AllocError>
    ensures { OnOk result (string_bytes out.new ≡ string_bytes out.old ++ facts_text (name_of names.now) e.now) }
{
    push_others(out, e.others)?;
    push_owned(out, names, &e.at, &e.owned)?;
    push_owned(out, names, &e.other, &e.other_owned)?;
    push_handed(out, names, &e.other, &e.handed)?;
    push_learnt(out, names, e.other.thread, &e.at, &e.learnt)
}

/// Adds an explanation.
pub fn push_explanation(
    out: &mut String,
    names: &Names<'_>,
    e: &Explanation,
) -> Result<(), AllocError>
    ensures { OnOk result (string_bytes out.new ≡ string_bytes out.old ++ explanation_text (name_of names.now) e.now) }
{
    push_lines(out, names, e)?;
    push_facts(out, names, e)
}

/// Adds the end of the text.
pub fn push_ending(out: &mut String, races: usize) -> Result<(), AllocError>
    ensures { OnOk result (string_bytes out.new ≡ string_bytes out.old ++ ending_text races) }
{
    out.push_str("races ")?;
    out.push_str(Buffer::new().format(races))?;
    out.push_str("\nonly this observed order of steps was judged\n")
}
