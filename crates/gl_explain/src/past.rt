// What another thread did, and how far that leads.
ghost use Rattle.std.specs.Prelude.{◌≡◌, ◌↔◌, ◌<◌, ◌≤◌, IsTrue, length};
ghost use Rattle.gl_explain.specs.Explained.{IsFirstBehind, is_handing, touches};
ghost use Rattle.gl_explain.specs.Races.{IsLastOf, IsPassed};
ghost use Rattle.gl_explain.specs.Told.{told_of};

use crate::told::{Kept, Told};
use gl_model::{Act, Item, Judged, VarSet};

// Whether it is a commit of some variable.
fn touches(reads: &VarSet, writes: &VarSet) -> bool
    ensures { result ≡ touches reads.now writes.now }
{
    reads.ids().first().is_some() || writes.ids().first().is_some()
}

// Whether the line hands on what the thread did before it.
fn hands_on(told: &Told, thread: u8) -> bool
    ensures { result ≡ is_handing thread told.now }
{
    match &told.item {
        Item::Act(act) => match act {
            Act::Rel(_) | Act::VWrite(_) | Act::Fork { .. } => told.thread == thread,
            Act::Join(other) => *other == thread,
            Act::Begin(_)
            | Act::End
            | Act::Acq(_)
            | Act::VRead(_)
            | Act::Alloc(_)
            | Act::Print
            | Act::Input
            | Act::Fail(_) => false,
        },
        Item::Access { .. } => false,
        Item::Commit { reads, writes } => match told.judged {
            Judged::Performed => told.thread == thread && touches(reads, writes),
            Judged::NoAccess | Judged::Raised { .. } => false,
        },
    }
}

/// The first line behind the place that hands on what the thread did.
pub fn first_handed(kept: &[Kept], place: usize, thread: u8) -> Option<Told>
    requires { place < length kept.now }
    ensures { IsFirstBehind (is_handing thread) (told_of kept.now) place result }
{
    for i in place + 1..kept.len() {
        let k = &kept[i];
        if hands_on(&k.told, thread) {
            return Some(k.told);
        }
    }
    None
}

// Whether the line is one of the thread, before which the clock has passed it.
fn is_passed(kept: &Kept, thread: u8, known: u32) -> bool
    ensures { IsTrue result ↔ ((kept.now.told.thread ≡ thread) × (kept.now.own ≤ known)) }
{
    let own = kept.told.thread == thread;
    let passed = kept.own <= known;
    own & passed
}

/// The last line of the thread before which a clock has passed it.
pub fn last_passed(kept: &[Kept], thread: u8, known: u32) -> Option<usize>
    ensures { IsLastOf (IsPassed kept.now thread known) result }
{
    let mut place = None;
    for i in 0..kept.len() {
        if is_passed(&kept[i], thread, known) {
            place = Some(i);
        }
    }
    place
}
