// The names of one kind.
ghost use Rattle.std.specs.Prelude.{◌≡◌, ◌<◌, ℕ, IfOk, length, option_copied, Some};
ghost use Rattle.std.specs.Option.{option_or};
ghost use Rattle.gl_names.specs.Names.{count_of, given, naming};
ghost use Rattle.gl_names.specs.Tables.{IsTable, slot};

use crate::kind::Kind;
use crate::naming::named;
use gl_text::Lines;
use std::alloc::{AllocError, Global};

// Gives the name to the one of this number, unless it has one.
fn note<'a>(table: &mut Vec<Option<&'a str>>, id: u16, name: &'a str)
    requires { id < length table.old.items }
    ensures length { length table.new.items ≡ length table.old.items }
    ensures slots { (n : ℕ) → slot table.new.items n ≡ option_or (slot table.old.items n) (given n (Some (id, name.now))) }
{
    table[usize::from(id)].get_or_insert(name);
}

// Takes a line.
fn take<'a>(table: &mut Vec<Option<&'a str>>, kind: Kind, line: &'a [u8])
    requires { length table.old.items ≡ count_of kind }
    ensures length { length table.new.items ≡ length table.old.items }
    ensures slots { (n : ℕ) → slot table.new.items n ≡ option_or (slot table.old.items n) (naming kind n line.now) }
{
    if let Some((id, name)) = named(kind, line) {
        note(table, id, name);
    }
}

/// The names that the lines of a text give to the things of the kind.
pub fn table_of<'a>(
    alloc: Global,
    text: &'a [u8],
    kind: Kind,
) -> Result<Vec<Option<&'a str>>, AllocError>
    requires { length text.now < u32.MAX }
    ensures { IfOk result (λ table. IsTable text.now kind table.items) }
{
    let mut table = vec![in alloc; None; usize::from(kind.count())]?;
    let mut lines = Lines::new(text);
    while let Some(line) = lines.next_line() {
        let text = line.text();
        take(&mut table, kind, text);
    }
    Ok(table)
}

/// The name at this number.
pub fn name_at<'a>(table: &[Option<&'a str>], id: u16) -> Option<&'a str>
    ensures { option_copied result ≡ slot table.now id }
{
    match table.get(usize::from(id)) {
        Some(name) => *name,
        None => None,
    }
}
