// Where a thread first hands on what it did.
ghost use Rattle.std.specs.Prelude.{◌≡◌, None, Some, if◌then◌else◌, nat_lt};
ghost use Rattle.gl_causes.specs.Handing.{IsHanded, act_way, entry_way, touches};
ghost use Rattle.gl_causes.specs.declared.handing.Way.TheVariants.{Commits};
ghost use Rattle.gl_model.specs.Entries.{seen};
ghost use Rattle.gl_model.specs.Lists.{lists_of};
ghost use Rattle.gl_places.specs.Places.{seen as seen_place};

use gl_model::{Act, Entry, Record, Tx};
use gl_places::Place;

/// How an entry hands on what its thread did before it.
#[derive(Clone, Copy, Debug, PartialEq, Eq)]
pub enum Way {
    /// It releases a monitor.
    Releases(u16),
    /// It writes a volatile.
    Writes(u16),
    /// It forks a thread.
    Forks(u8),
    /// It commits on some variable.
    Commits,
    /// It is the thread's end.
    Ends,
}

/// An entry by which a thread hands on what it did.
#[derive(Clone, Copy, Debug, PartialEq, Eq)]
pub struct Handing {
    pub place: Place,
    pub way: Way,
}

// Whether it looked at a variable or writes one.
fn touches(tx: &Tx) -> bool
    ensures { result ≡ touches tx.now }
{
    tx.looks.at(0).is_some() || tx.writes.at(0).is_some()
}

fn act_way(act: Act) -> Option<Way>
    ensures { result ≡ act_way act }
{
    match act {
        Act::End => Some(Way::Ends),
        Act::Rel(monitor) => Some(Way::Releases(monitor)),
        Act::VWrite(volatile) => Some(Way::Writes(volatile)),
        Act::Fork { child, .. } => Some(Way::Forks(child)),
        Act::Begin(_)
        | Act::Acq(_)
        | Act::VRead(_)
        | Act::Join(_)
        | Act::Alloc(_)
        | Act::Print
        | Act::Input
        | Act::Fail(_) => None,
    }
}

fn commit_way(tx: &Tx) -> Option<Way>
    ensures { result ≡ (if touches tx.now then Some Commits else None) }
{
    if touches(tx) {
        Some(Way::Commits)
    } else {
        None
    }
}

// How the entry hands on what its thread did before it, if it does.
fn entry_way(entry: &Entry) -> Option<Way>
    ensures { result ≡ entry_way (seen entry.now) }
{
    match entry {
        Entry::Sync { act, .. } => act_way(*act),
        Entry::Commit { tx, .. } => commit_way(tx),
        Entry::Plain { .. } | Entry::Abort { .. } | Entry::Trim { .. } | Entry::Over(_) => None,
    }
}

// The same, where the entry stands at this index, behind the place in the list of the place's thread.
fn way_behind(place: Place, index: usize, entry: &Entry) -> Option<Way>
    ensures { result ≡ (if nat_lt place.index index then entry_way (seen entry.now) else None) }
{
    if place.index < index as u64 {
        entry_way(entry)
    } else {
        None
    }
}

/// The first entry behind the place in its thread's list that hands on what the thread did, if there is one.
pub fn first_handing(made: &Record, place: Place) -> Option<Handing>
    ensures { IsHanded (lists_of made.now) (seen_place place) result }
{
    let list = made.thread(place.thread)?;
    for index in 0..list.len() {
        if let Some(way) = way_behind(place, index, &list[index]) {
            let thread = place.thread;
            let index = index as u64;
            return Some(Handing {
                place: Place { thread, index },
                way,
            });
        }
    }
    None
}
