// The text of a line of a trace.
ghost use Rattle.std.specs.Prelude.{◌≡◌, ◌++◌, OnOk, option_copied, string_bytes};
ghost use Rattle.std.specs.Fmt.{decimal};
ghost use Rattle.gl_model.specs.Trace.{is_in};
ghost use Rattle.gl_names.specs.Names.{name_of};
ghost use Rattle.gl_names.specs.declared.kind.Kind.TheVariants.{Thread};
ghost use Rattle.gl_explain.specs.Phrases.{name_text, thing_text, act_text, access_text, item_text, touch_text, head_text, told_text, racing_text, told_line};

use crate::told::Told;
use gl_model::{Act, Item, VarSet};
use gl_names::{Kind, Names};
use itoa::Buffer;
use std::alloc::AllocError;

/// Adds a word and a number behind it.
pub fn push_number(out: &mut String, word: &str, number: u32) -> Result<(), AllocError>
    ensures { OnOk result (string_bytes out.new ≡ string_bytes out.old ++ (word.now ++ decimal number)) }
{
    out.push_str(word)?;
    out.push_str(Buffer::new().format(number))
}

fn push_name(out: &mut String, name: Option<&str>) -> Result<(), AllocError>
    ensures { OnOk result (string_bytes out.new ≡ string_bytes out.old ++ name_text (option_copied name.entry)) }
{
    match name {
        None => Ok(()),
        Some(name) => {
            out.push_str(" (")?;
            out.push_str(name)?;
            out.push_str(")")
        }
    }
}

/// Adds a word, and one of the kind behind it.
pub fn push_thing(
    out: &mut String,
    word: &str,
    names: &Names<'_>,
    kind: Kind,
    id: u16,
) -> Result<(), AllocError>
    ensures { OnOk result (string_bytes out.new ≡ string_bytes out.old ++ (word.now ++ thing_text (name_of names.now) kind id)) }
{
    push_number(out, word, u32::from(id))?;
    push_name(out, names.name(kind, id))
}

fn push_act(out: &mut String, names: &Names<'_>, act: Act) -> Result<(), AllocError>
    ensures { OnOk result (string_bytes out.new ≡ string_bytes out.old ++ act_text (name_of names.now) act) }
{
    match act {
        Act::Begin(_) => out.push_str("begins"),
        Act::End => out.push_str("ends"),
        Act::Acq(m) => push_thing(out, "acquires monitor ", names, Kind::Monitor, m),
        Act::Rel(m) => push_thing(out, "releases monitor ", names, Kind::Monitor, m),
        Act::VRead(v) => push_thing(out, "reads volatile ", names, Kind::Volatile, v),
        Act::VWrite(v) => push_thing(out, "writes volatile ", names, Kind::Volatile, v),
        Act::Fork { child, .. } => push_thread(out, "forks thread ", names, child),
        Act::Join(other) => push_thread(out, "joins thread ", names, other),
        Act::Alloc(_) => out.push_str("allocates"),
        Act::Print => out.push_str("prints"),
        Act::Input => out.push_str("takes input"),
        Act::Fail(_) => out.push_str("fails"),
    }
}

/// Adds a word, and a thread behind it.
pub fn push_thread(
    out: &mut String,
    word: &str,
    names: &Names<'_>,
    thread: u8,
) -> Result<(), AllocError>
    ensures { OnOk result (string_bytes out.new ≡ string_bytes out.old ++ (word.now ++ thing_text (name_of names.now) Thread thread)) }
{
    push_thing(out, word, names, Kind::Thread, u16::from(thread))
}

fn push_access(out: &mut String, names: &Names<'_>, write: bool, var: u16) -> Result<(), AllocError>
    ensures { OnOk result (string_bytes out.new ≡ string_bytes out.old ++ access_text (name_of names.now) write var) }
{
    if write {
        push_thing(out, "writes variable ", names, Kind::Variable, var)
    } else {
        push_thing(out, "reads variable ", names, Kind::Variable, var)
    }
}

/// Adds what a line does.
pub fn push_item(out: &mut String, names: &Names<'_>, item: &Item) -> Result<(), AllocError>
    ensures { OnOk result (string_bytes out.new ≡ string_bytes out.old ++ item_text (name_of names.now) item.now) }
{
    match item {
        Item::Act(act) => push_act(out, names, *act),
        Item::Access { var, write } => push_access(out, names, *write, *var),
        Item::Commit { .. } => out.push_str("commits"),
    }
}

fn has(variables: &VarSet, var: u16) -> bool
    ensures { result ≡ is_in var variables.now }
{
    variables.has(var)
}

// What a line does to the variable.
fn push_touch(out: &mut String, names: &Names<'_>, var: u16, item: &Item) -> Result<(), AllocError>
    ensures { OnOk result (string_bytes out.new ≡ string_bytes out.old ++ touch_text (name_of names.now) var item.now) }
{
    match item {
        Item::Act(act) => push_act(out, names, *act),
        Item::Access { var: own, write } => push_access(out, names, *write, *own),
        Item::Commit { writes, .. } => {
            out.push_str("commits and ")?;
            push_access(out, names, has(writes, var), var)
        }
    }
}

fn push_head(out: &mut String, names: &Names<'_>, told: &Told) -> Result<(), AllocError>
    ensures { OnOk result (string_bytes out.new ≡ string_bytes out.old ++ head_text (name_of names.now) told.now) }
{
    push_number(out, "line ", told.line)?;
    push_thread(out, ": thread ", names, told.thread)?;
    out.push_str(" ")
}

fn push_told(out: &mut String, names: &Names<'_>, told: &Told) -> Result<(), AllocError>
    ensures { OnOk result (string_bytes out.new ≡ string_bytes out.old ++ told_text (name_of names.now) told.now) }
{
    push_head(out, names, told)?;
    push_item(out, names, &told.item)
}

/// Adds the line, and what it does to the variable.
pub fn push_racing(
    out: &mut String,
    names: &Names<'_>,
    var: u16,
    told: &Told,
) -> Result<(), AllocError>
    ensures { OnOk result (string_bytes out.new ≡ string_bytes out.old ++ racing_text (name_of names.now) var told.now) }
{
    push_head(out, names, told)?;
    push_touch(out, names, var, &told.item)
}

/// Adds the line, and an end of line.
pub fn push_told_line(out: &mut String, names: &Names<'_>, told: &Told) -> Result<(), AllocError>
    ensures { OnOk result (string_bytes out.new ≡ string_bytes out.old ++ told_line (name_of names.now) told.now) }
{
    push_told(out, names, told)?;
    out.push_str("\n")
}
