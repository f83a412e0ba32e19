// What one thread brings to the table and takes from it.
ghost use Rattle.std.specs.Prelude.{◌≡◌, ◌≢◌, map, ◌||◌, ℕ, ◌<◌, ◌≤◌, ◌+◌, true, false, suc, Contains, OnOk, OnErr, IfOk, IfErr, Some};
ghost use Rattle.gl_model.specs.declared.limits.TheConstants.{THREADS, VARIABLES};
ghost use Rattle.gl_model.specs.Entries.{Abort, Over, Plain};
ghost use Rattle.gl_rule.specs.Lives.{Ended, life_of};
ghost use Rattle.gl_model.specs.declared.row.Row.{Row as ARow};
ghost use Rattle.gl_rule.specs.Fitting.{MayRaise, MayTrim};
ghost use Rattle.gl_rule.specs.declared.slot.Slot.TheVariants as slot;
ghost use Rattle.gl_model.specs.Entries.{seen};
ghost use Rattle.gl_rule.specs.Closed.{IsDone};
ghost use Rattle.gl_table.specs.Doneness.{is_done, is_over as over_entry};
ghost use Rattle.gl_table.specs.Repeating.{MayRepeat};
ghost use Rattle.gl_table.specs.RightOf.{right_of};
ghost use Rattle.gl_table.specs.KeyOf.{key_of};
ghost use Rattle.gl_table.specs.Lowering.{lowered_pass};
ghost use Rattle.gl_rule.specs.Objects.{objects};
ghost use Rattle.gl_table.specs.OfTable.{OfTable};
ghost use Rattle.gl_table.specs.PassView.{view_of, shelf_of, after, after_adding};
ghost use Rattle.gl_table.specs.Putting.{DoesNotHold, MayAbort, MayPutBack, held_at};
ghost use Rattle.gl_rule.specs.Taken.{TakenTold};
ghost use Rattle.gl_draws.specs.RowFacts.{IsWithin};
ghost use Rattle.gl_rule.specs.Knowledge.{AreBelow};
ghost use Rattle.gl_rule.specs.View.{Held, Hold, Stop, SetStop, took, refused, left, saw_tail, saw, saw_floor, raised};

use crate::hold::bring;
use crate::moves::{
    Board, Seat, leave_turn, load_floor, load_hold, load_stop, load_tail, raise_first, raise_floor,
    set_word, take_turn,
};
use crate::own_list::OwnList;
use gl_model::{Ending, Entry, Row, Tx, Why};
use gl_rule::Slot;
use std::alloc::AllocError;
use std::marker::{Brand, Model};

/// A thread's way to the table, with what it stored.
#[derive(Drop)]
pub struct Pass {
    pub(crate) seat: Seat,
    pub(crate) id: u8,
    pub(crate) mine: OwnList,
    pub(crate) seen: u64,
    // Whether it has put back a state of the list in which no thread is live.
    pub(crate) quiet: bool,
    // The objects whose slots are out with the seat, the last taken first.
    pub(crate) order: Vec<u16>,
}

impl Model for Pass {
    ghost use Rattle.gl_table.specs.PassView.{PassView};

    ghost Value = { PassView };

    ghost use Rattle.gl_table.specs.PassInside.{pass_view, IsPassInside};

    ghost view = { pass_view };

    ghost invariant = { IsPassInside };
}

fn is_over(entry: &Entry) -> bool
    ensures { result ≡ over_entry (seen entry.now) }
{
    match entry {
        Entry::Over(_) => true,
        Entry::Sync { .. }
        | Entry::Commit { .. }
        | Entry::Plain { .. }
        | Entry::Abort { .. }
        | Entry::Trim { .. } => false,
    }
}

fn ends(mine: &[Entry], quiet: bool) -> bool
    ensures { result ≡ is_done (map seen mine.now) quiet }
{
    if mine.is_empty() {
        return quiet;
    }
    is_over(&mine[mine.len() - 1])
}

impl Pass {
    /// Its number.
    pub fn id(&self) -> u8
        ensures is { result ≡ self.now.own.id }
        ensures near { result < THREADS }
    {
        self.id
    }

    /// The last tail that it saw.
    pub fn seen(&self) -> u64
        ensures { result ≡ self.now.seen }
    {
        self.seen
    }

    /// Whether its list ends with Over, or is empty while it has seen that no thread is live.
    pub fn is_done(&self) -> bool
        ensures is { result ≡ is_done self.now.own.mine self.now.quiet }
        ensures done { result ≡ true → IsDone self.now.own.mine self.now.quiet }
    {
        ends(self.mine.entries(), self.quiet)
    }

    /// Number and kind of the last numbered performed access of the variable since the last event or dropped attempt: the right to repeat
    /// it.
    pub fn right(&self, var: u16) -> Option<(u64, bool)>
        ensures { result ≡ right_of self.now.own.mine var }
    {
        self.mine.right(var)
    }

    /// Makes room for so many entries more.
    pub fn reserve(&mut self, additional: usize) -> Result<(), AllocError>
        ensures spare { OnOk result (additional ≤ self.new.spare) }
        ensures own { self.new ≡ record self.old { spare = self.new.spare } }
        ensures err { OnErr result (self.new ≡ self.old) }
    {
        self.mine.reserve(additional)
    }

    /// Ends its list.
    pub fn over(&mut self, ending: Ending)
        requires ends { life_of self.old.own.mine ≡ Ended }
        requires spare { 0 < self.old.spare }
        ensures { self.new ≡ after_adding self.old (Over ending) }
    {
        self.mine.push(Entry::Over(ending));
    }

    /// Ends an attempt that is dropped, with its entry.
    pub fn abort(&mut self, tx: Box<Tx>, why: Why)
        requires may { MayAbort self.old tx.value why }
        requires spare { 0 < self.old.spare }
        ensures { self.new ≡ after_adding self.old (Abort tx.value why) }
    {
        tx.keeps();
        self.mine.push(Entry::Abort { tx, why });
    }

    /// Repeats its last access of the variable, to which it has the right: `nth` is its number.
    pub fn cached(&mut self, var: u16, nth: u64, write: bool, value: i64)
        requires may { MayRepeat self.old var nth write value }
        requires spare { 0 < self.old.spare }
        ensures { self.new ≡ after_adding self.old (Plain var nth true write value false) }
    {
        self.mine.push(Entry::Plain {
            var,
            nth,
            cached: true,
            write,
            value,
            raised: false,
        });
    }
}

// Tries to take an object; the Err names the pass that holds it.
pub(crate) fn take_object(board: &Board, pass: &mut Pass, k: u16) -> Result<Slot, u8>
    requires table { OfTable pass.old.own.table board.now.table_id (key_of board.now.key) }
    requires near { k < objects }
    requires free { DoesNotHold pass.old.own.held k }
    ensures ok { IfOk result (λ y. pass.new ≡ after pass.old (took (view_of pass.old) k y)) }
    ensures told { IfOk result (λ y. TakenTold (key_of board.now.key).setting (view_of pass.old) k y) }
    ensures busy { IfErr result (λ by. (by < THREADS) × (pass.new ≡ after pass.old (refused (view_of pass.old) k by))) }
    ensures other { IfErr result (λ by. by ≢ pass.old.own.id) }
{
    let found = take_turn::<Brand>(board, &mut pass.seat, pass.id, &pass.mine, k);
    if found != 0 {
        return Err((found - 1) as u8);
    }
    let Ok(()) = pass.order.insert(0, k) else {
        unreachable!()
    };
    Ok(board.exchange(&mut pass.seat, k as usize, Slot::Empty))
}

// Loads the tail.
pub(crate) fn see_tail(board: &Board, pass: &mut Pass) -> u64
    requires table { OfTable pass.old.own.table board.now.table_id (key_of board.now.key) }
    ensures pass { pass.new ≡ after pass.old (saw_tail (view_of pass.old) result) }
    ensures later { pass.old.seen ≤ result }
    ensures within { (h : Held) (row : ARow) → Contains pass.old.own.held h → h.taken ≡ slot.Row row → IsWithin row result }
    ensures below { AreBelow result (shelf_of pass.old) }
{
    let tail = load_tail::<Brand>(board, &mut pass.seat, pass.id, &pass.mine);
    pass.seen = tail;
    tail
}

// Loads the hold of an object.
pub(crate) fn see_hold(board: &Board, pass: &mut Pass, k: u16) -> u64
    requires table { OfTable pass.old.own.table board.now.table_id (key_of board.now.key) }
    requires near { k < objects }
    ensures pass { pass.new ≡ after pass.old (saw (view_of pass.old) (Hold k result)) }
    ensures risen { (m : ℕ) → Contains pass.old.reads (Hold k m) → m ≤ result }
{
    load_hold::<Brand>(board, &mut pass.seat, pass.id, &pass.mine, k)
}

fn either(a: bool, b: bool) -> bool
    ensures { result ≡ (a || b) }
{
    a || b
}

// Raises the first segment that the ring has, and answers what it was.
pub(crate) fn lower(board: &Board, pass: &mut Pass, to: u64) -> u64
    requires table { OfTable pass.old.own.table board.now.table_id (key_of board.now.key) }
    requires spare { 0 < pass.old.spare }
    requires may { MayTrim (key_of board.now.key) (shelf_of pass.old) (view_of pass.old) to }
    ensures pass { pass.new ≡ lowered_pass pass.old result to }
{
    let before = raise_first::<Brand>(board, &mut pass.seat, pass.id, &pass.mine, to);
    if before < to {
        pass.mine.push(Entry::Trim { low: to });
    }
    before
}

// Sets the stop word.
pub(crate) fn stop(board: &Board, pass: &mut Pass)
    requires table { OfTable pass.old.own.table board.now.table_id (key_of board.now.key) }
    ensures pass { pass.new ≡ after pass.old (saw (view_of pass.old) SetStop) }
{
    set_word::<Brand>(board, &mut pass.seat, pass.id, &pass.mine);
}

// Loads the stop word.
pub(crate) fn see_stop(board: &Board, pass: &mut Pass) -> u64
    requires table { OfTable pass.old.own.table board.now.table_id (key_of board.now.key) }
    ensures pass { pass.new ≡ after pass.old (saw (view_of pass.old) (Stop result)) }
    ensures risen { (m : ℕ) → Contains pass.old.reads (Stop m) → m ≤ result }
    ensures own { Contains pass.old.reads SetStop → result ≡ 1 }
{
    load_stop::<Brand>(board, &mut pass.seat, pass.id, &pass.mine)
}

// Puts an object back.
pub(crate) fn put_object(board: &Board, pass: &mut Pass, k: u16, slot: Slot, quiet: bool)
    requires table { OfTable pass.old.own.table board.now.table_id (key_of board.now.key) }
    requires near { k < objects }
    requires may { MayPutBack (key_of board.now.key).setting (shelf_of pass.old) (view_of pass.old) k slot quiet }
    ensures { pass.new ≡ after pass.old (left (view_of pass.old) k quiet) }
{
    bring(&mut pass.seat, pass.order.as_mut_slice(), k);
    pass.order.remove(0);
    pass.quiet = either(pass.quiet, quiet);
    let Slot::Empty = board.exchange(&mut pass.seat, k as usize, slot) else {
        unreachable!()
    };
    leave_turn::<Brand>(board, &mut pass.seat, pass.id, &pass.mine, k, quiet);
}

// Loads the hold of a row that is held.
pub(crate) fn see_floor(board: &Board, pass: &mut Pass, var: u16) -> u64
    requires table { OfTable pass.old.own.table board.now.table_id (key_of board.now.key) }
    requires near { var < VARIABLES }
    requires held { Contains pass.old.own.held (held_at (var + 1) pass.old.own.held) × ((held_at (var + 1) pass.old.own.held).object ≡ suc var) }
    ensures pass { pass.new ≡ after pass.old (saw_floor (view_of pass.old) (held_at (var + 1) pass.old.own.held) result) }
    ensures same { (m : ℕ) → (held_at (var + 1) pass.old.own.held).floor ≡ Some m → result ≡ m }
{
    load_floor::<Brand>(board, &mut pass.seat, pass.id, &pass.mine, var)
}

// Raises the hold of a row that is held, whose Infos have been moved up.
pub(crate) fn raise_hold(board: &Board, pass: &mut Pass, var: u16, row: &Row, to: u64)
    requires table { OfTable pass.old.own.table board.now.table_id (key_of board.now.key) }
    requires near { var < VARIABLES }
    requires may { (taken : ARow) × MayRaise (key_of board.now.key).setting (shelf_of pass.old) (view_of pass.old) (held_at (var + 1) pass.old.own.held) var taken row.now to }
    ensures pass { pass.new ≡ after pass.old (raised (view_of pass.old) (held_at (var + 1) pass.old.own.held) (slot.Row row.now) to) }
{
    raise_floor::<Brand>(board, &mut pass.seat, pass.id, &pass.mine, var, row, to);
}
