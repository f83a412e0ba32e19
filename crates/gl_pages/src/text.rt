// The text of an explanation.
ghost use Rattle.std.specs.Prelude.{◌≡◌, ◌++◌, OnOk, Some, None};
ghost use Rattle.std.specs.List.{flat_map};
ghost use Rattle.gl_names.specs.Names.{name_of};
ghost use Rattle.gl_explain.specs.Texts.{ending_text};
ghost use Rattle.gl_pages.specs.Texts.{did_text, explanation_text, facts_text, found_text, handed_text, handing_text, leading_text, leads_text, line_text, onward_text, others_text, owned_text, place_text, side_text, sides_text, source_text, touch_text, way_text, where_text};

use crate::facts::{Explanation, Handed, Leading, Side};
use crate::phrases::{push, push_access, push_monitors, push_number, push_thing, push_thread};
use gl_causes::Way;
use gl_names::{Kind, Names};
use gl_sites::SourceLine;
use std::alloc::AllocError;

fn push_line(out: &mut Vec<u8>, line: &SourceLine<'_>) -> Result<(), AllocError>
    ensures { OnOk result (out.new.items ≡ out.old.items ++ line_text line.now) }
{
    push(out, "function ")?;
    out.extend_from_slice(line.function)?;
    push_number(out, ", line ", u64::from(line.number))?;
    push(out, ", `")?;
    out.extend_from_slice(line.text)?;
    push(out, "`")
}

fn push_source(out: &mut Vec<u8>, source: &Option<SourceLine<'_>>) -> Result<(), AllocError>
    ensures { OnOk result (out.new.items ≡ out.old.items ++ source_text source.now) }
{
    match source {
        None => push(out, "no line"),
        Some(line) => push_line(out, line),
    }
}

fn push_place(out: &mut Vec<u8>, names: &Names<'_>, side: &Side<'_>) -> Result<(), AllocError>
    ensures { OnOk result (out.new.items ≡ out.old.items ++ place_text (name_of names.now) side.now) }
{
    push_thread(out, "thread ", names, side.place.thread)?;
    push(out, ", ")?;
    push_source(out, &side.source)
}

// What the access does to the variable, behind the words that stand before a commit.
fn push_touch(
    out: &mut Vec<u8>,
    names: &Names<'_>,
    commit: &str,
    var: u16,
    side: &Side<'_>,
) -> Result<(), AllocError>
    ensures { OnOk result (out.new.items ≡ out.old.items ++ touch_text (name_of names.now) commit.now var side.now) }
{
    if !side.plain {
        push(out, commit)?;
    }
    push_access(out, names, side.write, var)
}

fn push_side(
    out: &mut Vec<u8>,
    names: &Names<'_>,
    commit: &str,
    var: u16,
    side: &Side<'_>,
) -> Result<(), AllocError>
    ensures { OnOk result (out.new.items ≡ out.old.items ++ side_text (name_of names.now) commit.now var side.now) }
{
    push_place(out, names, side)?;
    push(out, ": ")?;
    push_touch(out, names, commit, var, side)
}

// The two accesses that race.
fn push_sides(out: &mut Vec<u8>, names: &Names<'_>, e: &Explanation<'_>) -> Result<(), AllocError>
    ensures { OnOk result (out.new.items ≡ out.old.items ++ sides_text (name_of names.now) e.now) }
{
    push_side(out, names, "is refused a commit that ", e.var, &e.at)?;
    push(out, "\n  races with ")?;
    push_side(out, names, "commits and ", e.var, &e.other)?;
    push(out, "\n")
}

fn push_others(out: &mut Vec<u8>, others: usize) -> Result<(), AllocError>
    ensures { OnOk result (out.new.items ≡ out.old.items ++ others_text others) }
{
    if others == 0 {
        return Ok(());
    }
    push_number(
        out,
        "  earlier accesses that it races with too: ",
        others as u64,
    )?;
    push(out, "\n")
}

fn push_owned(out: &mut Vec<u8>, names: &Names<'_>, side: &Side<'_>) -> Result<(), AllocError>
    ensures { OnOk result (out.new.items ≡ out.old.items ++ owned_text (name_of names.now) side.now) }
{
    push_thread(out, "  there thread ", names, side.place.thread)?;
    push(out, " owns ")?;
    push_monitors(out, names, &side.owned)?;
    push(out, "\n")
}

fn push_way(out: &mut Vec<u8>, names: &Names<'_>, way: Way) -> Result<(), AllocError>
    ensures { OnOk result (out.new.items ≡ out.old.items ++ way_text (name_of names.now) way) }
{
    match way {
        Way::Releases(m) => push_thing(out, "releases monitor ", names, Kind::Monitor, m),
        Way::Writes(v) => push_thing(out, "writes volatile ", names, Kind::Volatile, v),
        Way::Forks(child) => push_thread(out, "forks thread ", names, child),
        Way::Commits => push(out, "commits"),
        Way::Ends => push(out, "ends"),
    }
}

fn push_where(out: &mut Vec<u8>, source: &Option<SourceLine<'_>>) -> Result<(), AllocError>
    ensures { OnOk result (out.new.items ≡ out.old.items ++ where_text source.now) }
{
    match source {
        None => push(out, "at its end"),
        Some(line) => {
            push(out, "in ")?;
            push_line(out, line)
        }
    }
}

fn push_handing(out: &mut Vec<u8>, names: &Names<'_>, handed: &Handed<'_>) -> Result<(), AllocError>
    ensures { OnOk result (out.new.items ≡ out.old.items ++ handing_text (name_of names.now) handed.now) }
{
    push_where(out, &handed.source)?;
    push(out, ": ")?;
    push_way(out, names, handed.handing.way)?;
    push(out, "\n")
}

fn push_found(
    out: &mut Vec<u8>,
    names: &Names<'_>,
    handed: &Option<Handed<'_>>,
) -> Result<(), AllocError>
    ensures { OnOk result (out.new.items ≡ out.old.items ++ found_text (name_of names.now) handed.now) }
{
    match handed {
        None => push(out, " is handed on nowhere\n"),
        Some(found) => {
            push(out, " is first handed on ")?;
            push_handing(out, names, found)
        }
    }
}

// What was done at the access.
fn push_did(out: &mut Vec<u8>, names: &Names<'_>, side: &Side<'_>) -> Result<(), AllocError>
    ensures { OnOk result (out.new.items ≡ out.old.items ++ did_text (name_of names.now) side.now) }
{
    push_thread(out, "  what thread ", names, side.place.thread)?;
    push(out, " did there")
}

// Where it is handed on.
fn push_handed(
    out: &mut Vec<u8>,
    names: &Names<'_>,
    side: &Side<'_>,
    handed: &Option<Handed<'_>>,
) -> Result<(), AllocError>
    ensures { OnOk result (out.new.items ≡ out.old.items ++ handed_text (name_of names.now) side.now handed.now) }
{
    push_did(out, names, side)?;
    push_found(out, names, handed)
}

// That the other thread leads to the refused entry.
fn push_leads(
    out: &mut Vec<u8>,
    names: &Names<'_>,
    front: &str,
    verb: &str,
    e: &Explanation<'_>,
) -> Result<(), AllocError>
    ensures { OnOk result (out.new.items ≡ out.old.items ++ leads_text (name_of names.now) front.now verb.now e.now) }
{
    push_thread(out, front, names, e.other.place.thread)?;
    push_thread(out, verb, names, e.at.place.thread)?;
    push(out, " there")
}

fn push_no_leading(
    out: &mut Vec<u8>,
    names: &Names<'_>,
    e: &Explanation<'_>,
) -> Result<(), AllocError>
    ensures { OnOk result (out.new.items ≡ out.old.items ++ leading_text (name_of names.now) e.now None) }
{
    push_leads(out, names, "  nothing of thread ", " leads to thread ", e)?;
    push(out, "\n")
}

fn push_last_leading(
    out: &mut Vec<u8>,
    names: &Names<'_>,
    e: &Explanation<'_>,
    leading: &Leading<'_>,
) -> Result<(), AllocError>
    ensures { OnOk result (out.new.items ≡ out.old.items ++ leading_text (name_of names.now) e.now (Some leading.now)) }
{
    let verb = " that leads to thread ";
    push_leads(out, names, "  the last of thread ", verb, e)?;
    push(out, " is ")?;
    push_where(out, &leading.source)?;
    push(out, "\n")
}

// The last entry by which it does.
fn push_leading(out: &mut Vec<u8>, names: &Names<'_>, e: &Explanation<'_>) -> Result<(), AllocError>
    ensures { OnOk result (out.new.items ≡ out.old.items ++ leading_text (name_of names.now) e.now e.now.leading) }
{
    match &e.leading {
        None => push_no_leading(out, names, e),
        Some(leading) => push_last_leading(out, names, e, leading),
    }
}

// Where the other thread hands on what it did, and how far it leads.
fn push_onward(out: &mut Vec<u8>, names: &Names<'_>, e: &Explanation<'_>) -> Result<(), AllocError>
    ensures { OnOk result (out.new.items ≡ out.old.items ++ onward_text (name_of names.now) e.now) }
{
    push_handed(out, names, &e.other, &e.handed)?;
    push_leading(out, names, e)
}

// What is said of them.
fn push_facts(out: &mut Vec<u8>, names: &Names<'_>, e: &Explanation<'_>) -> Result<(), AllocError>
    ensures { OnOk result (out.new.items ≡ out.old.items ++ facts_text (name_of names.now) e.now) }
{
    push_others(out, e.others)?;
    push_owned(out, names, &e.at)?;
    push_owned(out, names, &e.other)?;
    push_onward(out, names, e)
}

fn push_explanation(
    out: &mut Vec<u8>,
    names: &Names<'_>,
    e: &Explanation<'_>,
) -> Result<(), AllocError>
    ensures { OnOk result (out.new.items ≡ out.old.items ++ explanation_text (name_of names.now) e.now) }
{
    push_sides(out, names, e)?;
    push_facts(out, names, e)
}

/// Adds the explanations.
pub(crate) fn push_all(
    out: &mut Vec<u8>,
    names: &Names<'_>,
    explained: &[Explanation<'_>],
) -> Result<(), AllocError>
    ensures { OnOk result (out.new.items ≡ out.old.items ++ flat_map (explanation_text (name_of names.now)) explained.now) }
{
    for e in explained {
        push_explanation(out, names, e)?;
    }
    Ok(())
}

/// Adds the end of the text.
pub(crate) fn push_ending(out: &mut Vec<u8>, races: usize) -> Result<(), AllocError>
    ensures { OnOk result (out.new.items ≡ out.old.items ++ ending_text races) }
{
    push_number(out, "races ", races as u64)?;
    push(out, "\nonly this observed order of steps was judged\n")
}
