ghost use Rattle.std.specs.Prelude.{◌≡◌, ◌++◌, ◌∷◌, [], IfOk, List, OnOk, count_by, length, map, string_bytes};
ghost use Rattle.std.specs.List.{flat_map};
ghost use Rattle.gl_model.specs.Entries.{Entry as SeenEntry, seen};
ghost use Rattle.gl_model.specs.Records.{position_of};
ghost use Rattle.gl_model.specs.Report.{is_event};
ghost use Rattle.gl_report.specs.Firsts.{AreFirsts};
ghost use Rattle.gl_report.specs.Lines.{out_lines_at};

use crate::lines::put_out;
use gl_model::Entry;
use std::alloc::{AllocError, Global};

// The position of the entry in the list of events, if it is an event.
fn position(entry: &Entry) -> Option<u64>
    ensures { result ≡ position_of (seen entry.now) }
{
    match entry {
        Entry::Sync { at, .. } | Entry::Commit { at, .. } => Some(*at),
        _ => None,
    }
}

// How many of them are events.
fn events(entries: &[(u8, &Entry)]) -> usize
    ensures { result ≡ count_by (λ p. is_event (seen p.1.now)) entries.now }
{
    entries
        .iter()
        .filter(|(_, entry)| position(entry).is_some())
        .count()
}

// Puts the entry into the slot of its position, if no entry is there.
fn note_first<'a>(firsts: &mut Vec<Option<&'a Entry>>, entry: &'a Entry)
    ensures length { length firsts.new.items ≡ length firsts.old.items }
    ensures firsts { (es : List SeenEntry) → AreFirsts (λ e. seen e.now) es firsts.old.items → AreFirsts (λ e. seen e.now) (es ++ seen entry.now ∷ []) firsts.new.items }
{
    if let Some(at) = position(entry) {
        if let Some(slot) = firsts.get_mut(at as usize) {
            slot.get_or_insert(entry);
        }
    }
}

// For each position the first of the entries that has it, if one has.
pub(crate) fn firsts<'a>(
    alloc: Global,
    entries: &[(u8, &'a Entry)],
) -> Result<Vec<Option<&'a Entry>>, AllocError>
    ensures length { IfOk result (λ firsts. length firsts.items ≡ count_by (λ p. is_event (seen p.1.now)) entries.now) }
    ensures firsts { IfOk result (λ firsts. AreFirsts (λ e. seen e.now) (map (λ p. seen p.1.now) entries.now) firsts.items) }
{
    let mut firsts = vec![in alloc; None; events(entries)]?;
    for (_, entry) in entries {
        note_first(&mut firsts, entry);
    }
    Ok(firsts)
}

// Adds the lines of what these print.
pub(crate) fn put_outs(out: &mut String, firsts: &[Option<&Entry>]) -> Result<(), AllocError>
    ensures { OnOk result (string_bytes out.new ≡ string_bytes out.old ++ flat_map (out_lines_at (λ e. seen e.now)) firsts.now) }
{
    for first in firsts {
        if let Some(entry) = first {
            put_out(out, entry)?;
        }
    }
    Ok(())
}
