// Words, numbers and names.
ghost use Rattle.std.specs.Prelude.{◌≡◌, ◌++◌, OnOk, option_copied};
ghost use Rattle.std.specs.Fmt.{decimal};
ghost use Rattle.std.specs.List.{flat_map};
ghost use Rattle.gl_names.specs.Names.{name_of};
ghost use Rattle.gl_names.specs.declared.kind.Kind.TheVariants.{Thread};
ghost use Rattle.gl_explain.specs.Phrases.{access_text, name_text, thing_text};
ghost use Rattle.gl_explain.specs.Texts.{monitor_text, monitors_text};

use gl_names::{Kind, Names};
use itoa::Buffer;
use std::alloc::AllocError;

/// Adds a word.
pub(crate) fn push(out: &mut Vec<u8>, word: &str) -> Result<(), AllocError>
    ensures { OnOk result (out.new.items ≡ out.old.items ++ word.now) }
{
    out.extend_from_slice(word.as_bytes())
}

/// Adds a word and a number behind it.
pub(crate) fn push_number(out: &mut Vec<u8>, word: &str, number: u64) -> Result<(), AllocError>
    ensures { OnOk result (out.new.items ≡ out.old.items ++ (word.now ++ decimal number)) }
{
    push(out, word)?;
    push(out, Buffer::new().format(number))
}

fn push_name(out: &mut Vec<u8>, name: Option<&str>) -> Result<(), AllocError>
    ensures { OnOk result (out.new.items ≡ out.old.items ++ name_text (option_copied name.entry)) }
{
    match name {
        None => Ok(()),
        Some(name) => {
            push(out, " (")?;
            push(out, name)?;
            push(out, ")")
        }
    }
}

/// Adds a word, and one of the kind behind it.
pub(crate) fn push_thing(
    out: &mut Vec<u8>,
    word: &str,
    names: &Names<'_>,
    kind: Kind,
    id: u16,
) -> Result<(), AllocError>
    ensures { OnOk result (out.new.items ≡ out.old.items ++ (word.now ++ thing_text (name_of names.now) kind id)) }
{
    push_number(out, word, u64::from(id))?;
    push_name(out, names.name(kind, id))
}

/// Adds a word, and a thread behind it.
pub(crate) fn push_thread(
    out: &mut Vec<u8>,
    word: &str,
    names: &Names<'_>,
    thread: u8,
) -> Result<(), AllocError>
    ensures { OnOk result (out.new.items ≡ out.old.items ++ (word.now ++ thing_text (name_of names.now) Thread thread)) }
{
    push_thing(out, word, names, Kind::Thread, u16::from(thread))
}

/// Adds an access of a variable.
pub(crate) fn push_access(
    out: &mut Vec<u8>,
    names: &Names<'_>,
    write: bool,
    var: u16,
) -> Result<(), AllocError>
    ensures { OnOk result (out.new.items ≡ out.old.items ++ access_text (name_of names.now) write var) }
{
    if write {
        push_thing(out, "writes variable ", names, Kind::Variable, var)
    } else {
        push_thing(out, "reads variable ", names, Kind::Variable, var)
    }
}

// Each monitor behind the first.
fn push_more(out: &mut Vec<u8>, names: &Names<'_>, monitors: &[u16]) -> Result<(), AllocError>
    ensures { OnOk result (out.new.items ≡ out.old.items ++ flat_map (monitor_text (name_of names.now)) monitors.now) }
{
    for monitor in monitors {
        push_thing(out, ", monitor ", names, Kind::Monitor, *monitor)?;
    }
    Ok(())
}

/// Adds monitors.
pub(crate) fn push_monitors(
    out: &mut Vec<u8>,
    names: &Names<'_>,
    monitors: &[u16],
) -> Result<(), AllocError>
    ensures { OnOk result (out.new.items ≡ out.old.items ++ monitors_text (name_of names.now) monitors.now) }
{
    match monitors {
        [] => push(out, "no monitor"),
        [first, more @ ..] => {
            push_thing(out, "monitor ", names, Kind::Monitor, *first)?;
            push_more(out, names, more)
        }
    }
}
