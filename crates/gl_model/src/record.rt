ghost use Rattle.std.specs.Prelude.{◌≡◌, ℕ, ◌<◌, ◌≤◌, ◌∷◌, ◌++◌, [], length, map, slice_index_or, slice_set, MatchOption, Option, Some, None, OnOk, IfOk, IfErr, ◌+◌};
ghost use Rattle.gl_model.specs.Entries.{seen, list_seen};
ghost use Rattle.gl_model.specs.Lists.{list_of, with_last};
ghost use Rattle.gl_model.specs.Kept.{IsEntryKept, IsEntryInRange, IsListKept, IsRecord};
ghost use Rattle.gl_model.specs.declared.limits.TheConstants.{THREADS};
ghost use Rattle.gl_model.specs.declared.record.ThreadList.{ThreadList};
ghost use Rattle.std.specs.List.{insert, AllByRecursion};
ghost use Rattle.std.specs.Vec.{vec_len};

use crate::event::Act;
use crate::tx::{Tx, Why};
use std::alloc::{AllocError, Global};
use std::marker::Model;

/// How a thread ends.
#[derive(Clone, Copy, Debug, PartialEq, Eq)]
pub enum Ending {
    Halt,
    Uncaught(u8),
    Spent,
}

/// What a record keeps of one step of a thread.
#[derive(Drop)]
pub enum Entry {
    Sync {
        at: u64,
        act: Act,
        value: i64,
    },
    Commit {
        at: u64,
        tx: Box<Tx>,
    },
    Plain {
        var: u16,
        nth: u64,
        cached: bool,
        write: bool,
        value: i64,
        raised: bool,
    },
    Abort {
        tx: Box<Tx>,
        why: Why,
    },
    Trim {
        low: u64,
    },
    Over(Ending),
}

/// The entries of one thread.
#[derive(Drop)]
struct ThreadList {
    thread: u8,
    entries: Vec<Entry>,
}

impl Entry {
    // Each id in the entry is one that there is, since the lists of a transaction have no others.
    fn keeps(&self)
        requires { IsEntryInRange (seen self.now) }
        ensures { IsEntryKept (seen self.now) }
    {
        match self {
            Entry::Commit { tx, .. } | Entry::Abort { tx, .. } => tx.keeps(),
            Entry::Sync { .. } | Entry::Plain { .. } | Entry::Trim { .. } | Entry::Over(_) => {}
        }
    }
}

impl ThreadList {
    fn append(&mut self, entry: Entry) -> Result<(), (Entry, AllocError)>
        ensures thread { self.new.thread ≡ self.old.thread }
        ensures ok { OnOk result (self.new.entries.items ≡ self.old.entries.items ++ entry ∷ []) }
        ensures err { IfErr result (λ refused. (refused.0 ≡ entry) × (self.new.entries.items ≡ self.old.entries.items)) }
    {
        match self.entries.push(entry) {
            Ok(()) => Ok(()),
            Err(refused) => Err((refused.value, AllocError)),
        }
    }
}

// The place of the thread's list among these, which rise: how many of them are of threads below it.
fn place_of(lists: &[ThreadList], thread: u8) -> usize
    ensures within { result ≤ length lists.now }
    ensures below { (k : ℕ) (d : ThreadList) → k < result → (slice_index_or lists.now k d).thread < thread }
    ensures here { (d : ThreadList) → result < length lists.now → thread ≤ (slice_index_or lists.now result d).thread }
{
    for (i, list) in lists.iter().enumerate() {
        if thread <= list.thread {
            return i;
        }
    }
    lists.len()
}

// Puts the entry behind the others of the list at place i.
fn append_at(lists: &mut Vec<ThreadList>, i: usize, entry: Entry) -> Result<(), (Entry, AllocError)>
    requires { i < vec_len lists.old }
    ensures ok { OnOk result ((list : ThreadList) × (list.thread ≡ (slice_index_or lists.old.items i list).thread) × (list.entries.items ≡ (slice_index_or lists.old.items i list).entries.items ++ entry ∷ []) × (lists.new.items ≡ slice_set lists.old.items i list)) }
    ensures err { IfErr result (λ refused. (refused.0 ≡ entry) × (map list_seen lists.new.items ≡ map list_seen lists.old.items)) }
{
    let list = &mut lists[i];
    list.append(entry)
}

// Puts a list of this one entry at place i.
fn start_at(
    lists: &mut Vec<ThreadList>,
    i: usize,
    thread: u8,
    entry: Entry,
) -> Result<(), (Entry, AllocError)>
    requires { i ≤ vec_len lists.old }
    ensures ok { OnOk result ((list : ThreadList) × (list.thread ≡ thread) × (list.entries.items ≡ entry ∷ []) × (lists.new.items ≡ insert lists.old.items i list)) }
    ensures err { IfErr result (λ refused. (refused.0 ≡ entry) × (map list_seen lists.new.items ≡ map list_seen lists.old.items)) }
{
    if lists.reserve(1).is_err() {
        return Err((entry, AllocError));
    }
    let mut list = ThreadList {
        thread,
        entries: Vec::new(*lists.allocator()),
    };
    list.append(entry)?;
    match lists.insert(i, list) {
        Ok(()) => Ok(()),
        Err(_) => unreachable!(),
    }
}

// Puts the entry behind those of its thread, whose list is started if there is none.
fn put_last(
    lists: &mut Vec<ThreadList>,
    thread: u8,
    entry: Entry,
) -> Result<(), (Entry, AllocError)>
    ensures ok { OnOk result (map list_seen lists.new.items ≡ with_last thread (seen entry) (map list_seen lists.old.items)) }
    ensures err { IfErr result (λ refused. (refused.0 ≡ entry) × (map list_seen lists.new.items ≡ map list_seen lists.old.items)) }
{
    let i = place_of(lists, thread);
    if i < lists.len() && lists[i].thread == thread {
        return append_at(lists, i, entry);
    }
    start_at(lists, i, thread, entry)
}

/// The lists of the threads, threads rising.
#[derive(Drop)]
pub struct Record {
    lists: Vec<ThreadList>,
}

impl Model for Record {
    ghost use Rattle.std.specs.Prelude.{List, ℕ, map};
    ghost use Rattle.gl_model.specs.Entries.{Entry, list_seen};

    ghost Value = { List (ℕ × List Entry) };

    ghost view = { λ r. map list_seen r.lists.items };

    ghost use Rattle.gl_model.specs.Kept.{IsRecord};

    ghost invariant = { λ r. IsRecord (map list_seen r.lists.items) };
}

impl Record {
    /// No list.
    pub fn empty(alloc: Global) -> Record
        ensures { result ≡ [] }
    {
        Record {
            lists: Vec::new(alloc),
        }
    }

    /// Tells a caller's proof that the threads rise, that no list is empty, and that each id in an entry is one that there is.
    pub fn keeps(&self)
        ensures { IsRecord self.now }
    {
        let _lists = &self.lists;
    }

    /// The list of the thread, if it has one.
    pub fn thread(&self, t: u8) -> Option<&[Entry]>
        ensures { MatchOption result (list_of self.now t ≡ None) (λ es. list_of self.now t ≡ Some (map seen es.now)) }
    {
        for list in &self.lists {
            if list.thread == t {
                return Some(&list.entries);
            }
        }
        None
    }

    /// Puts the entry behind those of its thread, and starts the thread's list if it has none. Where memory is wanting the entry comes
    /// back, and the record is as before.
    pub fn push(&mut self, thread: u8, entry: Entry) -> Result<(), (Entry, AllocError)>
        requires thread { thread < THREADS }
        requires entry { IsEntryInRange (seen entry) }
        ensures ok { OnOk result (self.new ≡ with_last thread (seen entry) self.old) }
        ensures err { IfErr result (λ refused. (refused.0 ≡ entry) × (self.new ≡ self.old)) }
    {
        entry.keeps();
        put_last(&mut self.lists, thread, entry)
    }
}

/// Room for the lists of a record, which are moved into it whole.
#[derive(Drop)]
pub struct RecordRoom {
    lists: Vec<ThreadList>,
}

impl Model for RecordRoom {
    ghost use Rattle.std.specs.Prelude.{map, ◌-◌, vec_capacity, vec_len};
    ghost use Rattle.gl_model.specs.Entries.{list_seen};
    ghost use Rattle.gl_model.specs.Kept.{IsRecord};
    ghost use Rattle.gl_model.specs.Rooms.{RoomView};

    ghost Value = { RoomView };

    ghost view = { λ r. record { lists = map list_seen r.lists.items; room = vec_capacity r.lists - vec_len r.lists } };

    ghost invariant = { λ r. IsRecord (map list_seen r.lists.items) };
}

impl RecordRoom {
    /// Room for so many lists at least.
    pub fn with_capacity(alloc: Global, lists: usize) -> Result<RecordRoom, AllocError>
        ensures { IfOk result (λ r. (r.lists ≡ []) × (lists ≤ r.room)) }
    {
        Ok(RecordRoom {
            lists: Vec::with_capacity(alloc, lists)?,
        })
    }

    /// Puts the list of a thread behind those of the threads below it.
    pub fn add(&mut self, thread: u8, entries: Vec<Entry>)
        requires room { 0 < self.old.room }
        requires list { IsListKept (thread, map seen entries.items) }
        requires behind { AllByRecursion (λ l. l.0 < thread) self.old.lists }
        ensures lists { self.new.lists ≡ self.old.lists ++ (thread, map seen entries.items) ∷ [] }
        ensures room { self.new.room + 1 ≡ self.old.room }
    {
        self.lists.push_reserved(ThreadList { thread, entries });
    }

    /// The record of these lists.
    pub fn record(self) -> Record
        ensures { result ≡ self.lists }
    {
        Record { lists: self.lists }
    }
}
