// The words of the drawing.
ghost use Rattle.std.specs.Prelude.{◌≡◌, ◌++◌, IfOk, codes, string_bytes};
ghost use Rattle.std.specs.Fmt.{decimal};
ghost use Rattle.gl_names.specs.Names.{name_of};
ghost use Rattle.gl_names.specs.declared.kind.Kind.TheVariants.{Thread};
ghost use Rattle.gl_explain.specs.Phrases.{item_text, racing_text, thing_text};

use gl_explain::{Told, push_item, push_racing, push_thing};
use gl_model::Item;
use gl_names::{Kind, Names};
use itoa::Buffer;
use std::alloc::{AllocError, Global};

/// What a line does.
pub fn item_label(alloc: Global, names: &Names<'_>, item: &Item) -> Result<String, AllocError>
    ensures { IfOk result (λ s. string_bytes s ≡ item_text (name_of names.now) item.now) }
{
    let mut label = String::new(alloc);
    push_item(&mut label, names, item)?;
    Ok(label)
}

/// Which thread a column is of.
pub fn thread_label(alloc: Global, names: &Names<'_>, thread: u8) -> Result<String, AllocError>
    ensures { IfOk result (λ s. string_bytes s ≡ codes "thread " ++ thing_text (name_of names.now) Thread thread) }
{
    let mut label = String::new(alloc);
    push_thing(
        &mut label,
        "thread ",
        names,
        Kind::Thread,
        u16::from(thread),
    )?;
    Ok(label)
}

/// A word, and what a line does to the variable of the race.
pub fn racing_label(
    alloc: Global,
    names: &Names<'_>,
    word: &str,
    var: u16,
    told: &Told,
) -> Result<String, AllocError>
    ensures { IfOk result (λ s. string_bytes s ≡ word.now ++ racing_text (name_of names.now) var told.now) }
{
    let mut label = String::new(alloc);
    label.push_str(word)?;
    push_racing(&mut label, names, var, told)?;
    Ok(label)
}

/// How many lines are left out.
pub fn left_label(alloc: Global, left_out: usize) -> Result<String, AllocError>
    ensures { IfOk result (λ s. string_bytes s ≡ decimal left_out ++ codes " lines are left out") }
{
    let mut label = String::new(alloc);
    label.push_str(Buffer::new().format(left_out))?;
    label.push_str(" lines are left out")?;
    Ok(label)
}
