// Private words: plain accesses that need no table move, and what is owed for them.
ghost use Rattle.std.specs.Prelude.{◌≡◌, ◌<◌, ◌≤◌, true, false, [], Some, None, IfOk, IfErr, OnErr};
ghost use Rattle.gl_model.specs.declared.limits.TheConstants.{VARIABLES};
ghost use Rattle.gl_rows.specs.Accessing.{HasEntry};
ghost use Rattle.gl_rows.specs.Walks.{ReadBusy};
ghost use Rattle.gl_rule.specs.Lives.{Running, life_of};
ghost use Rattle.gl_rule.specs.Objects.{capacity};
ghost use Rattle.gl_table.specs.RightOf.{right_of};
ghost use Rattle.gl_riders.specs.Owing.{MayMark, Owns, PlainBy, repeat_number, repeated};
ghost use Rattle.gl_riders.specs.Unanswered.{IsPaid, PayStops};
ghost use Rattle.gl_table.specs.Repeating.{MayRepeat};

use crate::thread::Thread;
use gl_cache::WordCache;
use gl_rows::{Seen, Window, access, write_back};
use gl_shortcut::Cuts;
use gl_table::{Busy, Pass, Shared};

// A plain access that the machine asks: a read of the variable, or a write of this value.
#[derive(Clone, Copy)]
pub(crate) struct Access {
    pub(crate) var: u16,
    pub(crate) write: Option<i64>,
}

// Writes back what is owed, the least variable first, and says whether nothing is owed any more.
pub(crate) fn flush(shared: &Shared, pass: &mut Pass, words: &mut WordCache) -> bool
    requires table { pass.old.own.table ≡ shared.now.id }
    requires held { pass.old.own.held ≡ [] }
    requires owns { Owns words.old pass.old.own }
    ensures owns { Owns words.new pass.new.own }
    ensures rest { pass.new.own ≡ record pass.old.own { owed = pass.new.own.owed } }
    ensures spare { pass.new.spare ≡ pass.old.spare }
    ensures done { result ≡ true → IsPaid pass.old pass.new }
    ensures stuck { result ≡ false → PayStops pass.old pass.new }
{
    'owed: loop {
        match words.next_dirty() {
            None => return true,
            Some((var, value)) => match write_back(shared, pass, var, value) {
                Ok(()) => words.clean(var),
                Err(_) => return false,
            },
        }
    }
}

// The number of the access that may be repeated by this right, where there is one.
fn number_of(right: Option<(u64, bool)>, write: Option<i64>) -> Option<u64>
    ensures { result ≡ repeat_number right write }
{
    match right {
        None => None,
        Some((nth, writes)) => match write {
            None => Some(nth),
            Some(_) => { if writes { Some(nth) } else { None } }
        },
    }
}

// Adds the entry of a repeat.
fn add_repeat(pass: &mut Pass, var: u16, nth: u64, write: bool, value: i64)
    requires may { MayRepeat pass.old var nth write value }
    requires spare { 0 < pass.old.spare }
    ensures { pass.new.own ≡ repeated var nth write value pass.old.own }
{
    pass.cached(var, nth, write, value);
}

// Reads a variable again.
fn read_again(pass: &mut Pass, words: &WordCache, var: u16, nth: u64) -> i64
    requires right { repeat_number (right_of pass.old.own.mine var) None ≡ Some nth }
    requires held { pass.old.own.held ≡ [] }
    requires runs { life_of pass.old.own.mine ≡ Running }
    requires spare { 0 < pass.old.spare }
    requires there { var < VARIABLES }
    requires owns { Owns words.now pass.old.own }
    ensures done { pass.new.own ≡ repeated var nth false result pass.old.own }
    ensures owns { Owns words.now pass.new.own }
{
    match words.find(var) {
        Some(value) => {
            add_repeat(pass, var, nth, false, value);
            value
        }
        None => unreachable!(),
    }
}

// Writes a variable again.
fn write_again(pass: &mut Pass, words: &mut WordCache, var: u16, nth: u64, value: i64)
    requires right { repeat_number (right_of pass.old.own.mine var) (Some value) ≡ Some nth }
    requires held { pass.old.own.held ≡ [] }
    requires runs { life_of pass.old.own.mine ≡ Running }
    requires spare { 0 < pass.old.spare }
    requires there { var < VARIABLES }
    requires owns { Owns words.old pass.old.own }
    ensures done { pass.new.own ≡ repeated var nth true value pass.old.own }
    ensures owns { Owns words.new pass.new.own }
{
    add_repeat(pass, var, nth, true, value);
    words.put(var, value, true);
}

// Repeats an access without a table move.
fn repeat(pass: &mut Pass, words: &mut WordCache, var: u16, nth: u64, write: Option<i64>) -> Seen
    requires right { repeat_number (right_of pass.old.own.mine var) write ≡ Some nth }
    requires held { pass.old.own.held ≡ [] }
    requires runs { life_of pass.old.own.mine ≡ Running }
    requires spare { 0 < pass.old.spare }
    requires there { var < VARIABLES }
    requires owns { Owns words.old pass.old.own }
    ensures done { PlainBy (Some nth) var write result pass.old.own pass.new.own }
    ensures owns { Owns words.new pass.new.own }
{
    match write {
        None => Seen::Value(read_again(pass, words, var, nth)),
        Some(value) => {
            write_again(pass, words, var, nth, value);
            Seen::Value(value)
        }
    }
}

// An access by the table, whose word is kept where it is performed.
fn first_access(
    table: &Shared,
    thread: &mut Thread,
    wanted: Access,
    cuts: &Cuts,
    window: &mut Window,
) -> Result<Seen, Busy>
    requires may { MayMark table.now thread.old.pass }
    requires right { repeat_number (right_of thread.old.pass.own.mine wanted.var) wanted.write ≡ None }
    requires there { wanted.var < VARIABLES }
    requires owns { Owns thread.old.words thread.old.pass.own }
    requires window { capacity table.now.key ≤ window.old }
    ensures done { IfOk result (λ s. HasEntry wanted.var wanted.write thread.old.pass.own s thread.new.pass.own) }
    ensures kept { OnErr result (thread.new.pass.own ≡ thread.old.pass.own) }
    ensures busy { IfErr result (λ b. ReadBusy wanted.var b.by thread.old.pass thread.new.pass) }
    ensures owns { Owns thread.new.words thread.new.pass.own }
    ensures machine { thread.new.machine ≡ thread.old.machine }
    ensures txn { thread.new.txn ≡ thread.old.txn }
    ensures window { window.new ≡ window.old }
{
    let Access { var, write } = wanted;
    match access(table, &mut thread.pass, var, write, cuts, window) {
        Ok(Seen::Value(value)) => {
            thread.words.put(var, write.unwrap_or(value), false);
            Ok(Seen::Value(value))
        }
        Ok(Seen::Raised { nth }) => Ok(Seen::Raised { nth }),
        Err(busy) => Err(busy),
    }
}

// A plain access: repeated exactly where there is a right to.
pub(crate) fn plain(
    table: &Shared,
    thread: &mut Thread,
    wanted: Access,
    cuts: &Cuts,
    window: &mut Window,
) -> Result<Seen, Busy>
    requires may { MayMark table.now thread.old.pass }
    requires there { wanted.var < VARIABLES }
    requires owns { Owns thread.old.words thread.old.pass.own }
    requires window { capacity table.now.key ≤ window.old }
    ensures done { IfOk result (λ s. PlainBy (repeat_number (right_of thread.old.pass.own.mine wanted.var) wanted.write) wanted.var wanted.write s thread.old.pass.own thread.new.pass.own) }
    ensures kept { OnErr result (thread.new.pass.own ≡ thread.old.pass.own) }
    ensures busy { IfErr result (λ b. ReadBusy wanted.var b.by thread.old.pass thread.new.pass) }
    ensures unrepeated { OnErr result (repeat_number (right_of thread.old.pass.own.mine wanted.var) wanted.write ≡ None) }
    ensures owns { Owns thread.new.words thread.new.pass.own }
    ensures machine { thread.new.machine ≡ thread.old.machine }
    ensures txn { thread.new.txn ≡ thread.old.txn }
    ensures window { window.new ≡ window.old }
{
    let Access { var, write } = wanted;
    match number_of(thread.pass.right(var), write) {
        Some(nth) => Ok(repeat(&mut thread.pass, &mut thread.words, var, nth, write)),
        None => first_access(table, thread, wanted, cuts, window),
    }
}
