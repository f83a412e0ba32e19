// The lines that a raised access races with.
ghost use Rattle.std.specs.Prelude.{◌≡◌, ◌↔◌, ◌<◌, ◌+◌, ℕ, IsTrue, None, Some, false, length};
ghost use Rattle.gl_core.specs.Cells.{at};
ghost use Rattle.gl_lines.specs.TraceLaws.{Accesses, WritesTo, commit_of};
ghost use Rattle.gl_explain.specs.Races.{Conflicts, Counts, IsLastOf, IsUnknown};

use crate::told::{Kept, Told};
use gl_model::{Item, Judged, THREADS};

// The threads as a length.
const ALL: usize = THREADS as usize;

// Whether a line accesses the variable.
fn touches(item: &Item, var: u16) -> bool
    ensures { IsTrue result ↔ Accesses item.now var }
{
    match item {
        Item::Act(_) => false,
        Item::Access { var: own, .. } => *own == var,
        Item::Commit { reads, writes } => {
            let read = reads.has(var);
            let written = writes.has(var);
            read | written
        }
    }
}

// Whether a line that accesses the variable writes it.
fn writes_to(item: &Item, var: u16) -> bool
    ensures { IsTrue result ↔ WritesTo item.now var }
{
    match item {
        Item::Act(_) => false,
        Item::Access { write, .. } => *write,
        Item::Commit { writes, .. } => writes.has(var),
    }
}

// Whether a line is no commit.
fn is_plain(item: &Item) -> bool
    ensures { IsTrue result ↔ (commit_of item.now ≡ None) }
{
    match item {
        Item::Act(_) | Item::Access { .. } => true,
        Item::Commit { .. } => false,
    }
}

// Whether the earlier line is a performed access that conflicts with the next line on the variable.
fn conflicts(earlier: &Told, next: &Told, var: u16) -> bool
    ensures { IsTrue result ↔ Conflicts earlier.now next.now var }
{
    let performed = matches!(earlier.judged, Judged::Performed);
    let touches = touches(&earlier.item, var);
    let another = earlier.thread != next.thread;
    let written = writes_to(&earlier.item, var);
    let writes = writes_to(&next.item, var);
    let plain = is_plain(&earlier.item);
    let also_plain = is_plain(&next.item);
    performed & touches & another & (written | writes) & (plain | also_plain)
}

// What is known of the thread.
pub fn tick_of(known: &[u32; ALL], thread: u8) -> u32
    ensures { result ≡ at known.now thread }
{
    match known.get(thread as usize) {
        Some(tick) => *tick,
        None => 0,
    }
}

// Whether the line conflicts with the next one, and is unknown.
fn is_unknown(kept: &Kept, next: &Told, var: u16, known: &[u32; ALL]) -> bool
    ensures { IsTrue result ↔ (Conflicts kept.now.told next.now var × (at known.now kept.now.told.thread < kept.now.mark)) }
{
    let conflicts = conflicts(&kept.told, next, var);
    let unknown = tick_of(known, kept.told.thread) < kept.mark;
    conflicts & unknown
}

// The last of the lines that conflict with the next one and are unknown, and how many there are.
#[derive(Clone, Copy)]
struct Found {
    place: Option<usize>,
    count: usize,
}

fn find(kept: &[Kept], next: &Told, var: u16, known: &[u32; ALL]) -> Found
    ensures last { IsLastOf (IsUnknown kept.now next.now var known.now) result.place }
    ensures count { Counts (IsUnknown kept.now next.now var known.now) (length kept.now) result.count }
{
    let mut place = None;
    let mut count = 0;
    for i in 0..kept.len() {
        if is_unknown(&kept[i], next, var, known) {
            place = Some(i);
            count += 1;
        }
    }
    Found { place, count }
}

/// The last line that the next one races with, and how many others there are.
#[derive(Clone, Copy)]
pub struct Culprit {
    pub place: usize,
    pub others: usize,
}

pub fn last_culprit(kept: &[Kept], next: &Told, var: u16, known: &[u32; ALL]) -> Culprit
    requires { (i : ℕ) × IsUnknown kept.now next.now var known.now i }
    ensures near { result.place < length kept.now }
    ensures last { IsLastOf (IsUnknown kept.now next.now var known.now) (Some result.place) }
    ensures count { Counts (IsUnknown kept.now next.now var known.now) (length kept.now) (result.others + 1) }
{
    let found = find(kept, next, var, known);
    let place = found.place.unwrap();
    Culprit {
        place,
        others: found.count - 1,
    }
}
