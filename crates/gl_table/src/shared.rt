// The table that threads share.
ghost use Rattle.std.specs.Prelude.{◌≡◌, ◌≢◌, max, Contains, ℕ, ◌+◌, ◌<◌, ◌≤◌, IsTrue, ◌↔◌, IfOk, IfErr, [], pos, suc, false, List, Some};
ghost use Rattle.gl_model.specs.declared.limits.TheConstants.{THREADS, VARIABLES};
ghost use Rattle.gl_segments.specs.Rings.{IsRing};
ghost use Rattle.gl_rule.specs.Objects.{capacity};
ghost use Rattle.gl_model.specs.declared.row.Row.{Row as ARow};
ghost use Rattle.gl_rule.specs.Fitting.{MayRaise, MayTrim, MayWalk};
ghost use Rattle.gl_model.specs.Elements.{IsStampInRange};
ghost use Rattle.gl_model.specs.Records.{variables_of};
ghost use Rattle.gl_table.specs.Committing.{MayPublishTx, published_tx};
ghost use Rattle.gl_table.specs.Walking.{four_words, knew};
ghost use Rattle.gl_table.specs.Lowering.{lowered_pass};
ghost use Rattle.gl_table.specs.PassView.{view_of, shelf_of, after};
ghost use Rattle.gl_table.specs.Putting.{DoesNotHold, MayPutBack, MayPublishAct, MayMarkPlain, MayOpenOn, MayPayOn, held_at, marked_plain, opened, paid_back, published_act};
ghost use Rattle.gl_rule.specs.Taken.{StateTold};
ghost use Rattle.gl_draws.specs.RowFacts.{IsWithin};
ghost use Rattle.gl_rule.specs.Knowledge.{AreBelow};
ghost use Rattle.gl_rule.specs.Told.{IsAboveDrawn};
ghost use Rattle.gl_rule.specs.View.{Held, Hold, Stop, SetStop, took, refused, left, saw_tail, saw, saw_floor, raised};
ghost use Rattle.gl_rule.specs.declared.slot.Slot.TheVariants as slot;

use crate::layout::Layout;
use crate::pass::{
    Pass, lower, put_object, raise_hold, see_floor, see_hold, see_stop, see_tail, stop, take_object,
};
use crate::rule::Order;
use crate::telling::{commit, mark_plain, open, publish, put_paid};
use crate::walking::event_at;
use atomic_table::Table;
use gl_model::{Act, Row, Stamp, Tx, VarSet};
use gl_rule::{Know, Slot};
use gl_segments::Ring;
use gl_state::{KeptRow, ListState};
use std::alloc::Global;
use std::marker::Model;

/// The shared table.
#[derive(Drop)]
pub struct Shared {
    pub(crate) table: Table<Slot, Know, Layout, Order, Global>,
    pub(crate) layout: Layout,
}

impl Model for Shared {
    ghost use Rattle.gl_table.specs.TableView.{TableView};

    ghost Value = { TableView };

    ghost use Rattle.gl_table.specs.SharedInside.{shared_view, IsShared};

    ghost view = { shared_view };

    ghost invariant = { IsShared };
}

/// The pass that held the turn.
#[derive(Drop)]
pub struct Busy {
    pub by: u8,
}

impl Shared {
    /// Tries to take the list's state, which the pass does not hold. The Err names another pass, which holds it.
    pub fn take_list(&self, pass: &mut Pass) -> Result<ListState, Busy>
        requires table { pass.old.own.table ≡ self.now.id }
        requires free { DoesNotHold pass.old.own.held 0 }
        ensures ok { IfOk result (λ l. pass.new ≡ after pass.old (took (view_of pass.old) 0 (slot.List l))) }
        ensures told { IfOk result (λ l. StateTold self.now.key.setting (view_of pass.old) l) }
        ensures busy { IfErr result (λ b. (b.by < THREADS) × (pass.new ≡ after pass.old (refused (view_of pass.old) 0 b.by))) }
        ensures other { IfErr result (λ b. b.by ≢ pass.old.own.id) }
    {
        match take_object(&self.table.shared, pass, 0) {
            Ok(Slot::List(state)) => Ok(state),
            Ok(_) => unreachable!(),
            Err(by) => Err(Busy { by }),
        }
    }

    /// Puts the list's state back; `quiet` says that no thread of it is live.
    pub fn put_list(&self, pass: &mut Pass, state: ListState, quiet: bool)
        requires table { pass.old.own.table ≡ self.now.id }
        requires may { MayPutBack self.now.key.setting (shelf_of pass.old) (view_of pass.old) 0 (slot.List state) quiet }
        ensures { pass.new ≡ after pass.old (left (view_of pass.old) 0 quiet) }
    {
        put_object(&self.table.shared, pass, 0, Slot::List(state), quiet);
    }

    /// Loads the tail. The Infos of each row that the pass holds lie within it, and the pass's own events below it.
    pub fn tail(&self, pass: &mut Pass) -> u64
        requires table { pass.old.own.table ≡ self.now.id }
        ensures pass { pass.new ≡ after pass.old (saw_tail (view_of pass.old) result) }
        ensures later { pass.old.seen ≤ result }
        ensures within { (h : Held) (row : ARow) → Contains pass.old.own.held h → h.taken ≡ slot.Row row → IsWithin row result }
        ensures below { AreBelow result (shelf_of pass.old) }
    {
        see_tail(&self.table.shared, pass)
    }

    /// Loads the first segment that the ring has.
    pub fn low(&self, pass: &mut Pass) -> u64
        requires table { pass.old.own.table ≡ self.now.id }
        ensures pass { pass.new ≡ after pass.old (saw (view_of pass.old) (Hold 0 result)) }
    {
        see_hold(&self.table.shared, pass, 0)
    }

    /// The ring of the list's cells.
    pub fn ring(&self) -> Ring
        ensures is { (result.segments ≡ self.now.key.segments) × (result.cells ≡ self.now.key.cells) }
        ensures valid { IsRing result }
    {
        self.layout.ring
    }

    /// Publishes an act, by which the list's state became `state`, and answers its position: the tail that it saw. The words of the event
    /// are stored in the cell of the tail first.
    pub fn publish(&self, pass: &mut Pass, act: &Act, value: i64, state: &ListState) -> u64
        requires table { pass.old.own.table ≡ self.now.id }
        requires idle { pass.old.own.drawn ≡ [] }
        requires spare { 0 < pass.old.spare }
        requires may { MayPublishAct self.now.key pass.old act.now value state.now }
        ensures published { pass.new ≡ published_act pass.old act.now value result state.now }
        ensures here { result ≡ pass.old.seen }
    {
        publish(
            &self.table.shared,
            pass,
            self.layout.ring.len(),
            act,
            value,
            state,
        )
    }

    /// Publishes the commit of an attempt, on these variables, and answers its position. The words of the event are stored in the cell of
    /// the tail first. Nothing waits for its entry afterwards.
    pub fn publish_commit(
        &self,
        pass: &mut Pass,
        tx: Box<Tx>,
        vars: &VarSet,
        state: &ListState,
    ) -> u64
        requires table { pass.old.own.table ≡ self.now.id }
        requires spare { 0 < pass.old.spare }
        requires vars { vars.now ≡ variables_of tx.value }
        requires may { MayPublishTx self.now.key pass.old tx.value state.now }
        ensures published { pass.new ≡ published_tx pass.old tx.value result state.now }
        ensures here { result ≡ pass.old.seen }
    {
        commit(
            &self.table.shared,
            pass,
            self.layout.ring.len(),
            tx,
            vars,
            state,
        )
    }

    /// The event at a position that the pass has seen and may walk from: it holds a row of which an Info stands there or below, or whose
    /// hold it raised that far. The pass knows the event from then on, and has seen no more than a ring's length behind it.
    pub fn event_at(&self, pass: &mut Pass, pos: u64) -> Stamp
        requires table { pass.old.own.table ≡ self.now.id }
        requires may { (pos < pass.old.seen) × MayWalk (view_of pass.old) pos }
        ensures pass { (a : ℕ) × (b : ℕ) × (c : ℕ) × (d : ℕ) × (e : ℕ) × (pass.new ≡ knew (four_words pass.old pos a b c d) pos e result) }
        ensures ring { pass.old.seen ≤ pos + capacity self.now.key }
        ensures range { IsStampInRange result }
    {
        event_at(&self.table.shared, pass, self.layout.ring.len(), pos)
    }

    /// Tries to take a row, which the pass does not hold. The Err names another pass, which holds it.
    pub fn take_row(&self, pass: &mut Pass, var: u16) -> Result<KeptRow, Busy>
        requires table { pass.old.own.table ≡ self.now.id }
        requires near { var < VARIABLES }
        requires free { DoesNotHold pass.old.own.held (suc var) }
        ensures ok { IfOk result (λ r. pass.new ≡ after pass.old (took (view_of pass.old) (suc var) (slot.Row r))) }
        ensures busy { IfErr result (λ b. (b.by < THREADS) × (pass.new ≡ after pass.old (refused (view_of pass.old) (suc var) b.by))) }
        ensures other { IfErr result (λ b. b.by ≢ pass.old.own.id) }
    {
        match take_object(&self.table.shared, pass, var + 1) {
            Ok(Slot::Row(row)) => Ok(row),
            Ok(_) => unreachable!(),
            Err(by) => Err(Busy { by }),
        }
    }

    /// Puts a row back.
    pub fn put_row(&self, pass: &mut Pass, var: u16, row: KeptRow)
        requires table { pass.old.own.table ≡ self.now.id }
        requires near { var < VARIABLES }
        requires may { MayPutBack self.now.key.setting (shelf_of pass.old) (view_of pass.old) (suc var) (slot.Row row) false }
        ensures { pass.new ≡ after pass.old (left (view_of pass.old) (suc var) false) }
    {
        put_object(&self.table.shared, pass, var + 1, Slot::Row(row), false);
    }

    /// Draws the number of a plain access on a row that is held, and stores its entry.
    pub fn mark(&self, pass: &mut Pass, var: u16, write: bool, value: i64, raised: bool) -> u64
        requires table { pass.old.own.table ≡ self.now.id }
        requires near { var < VARIABLES }
        requires spare { 0 < pass.old.spare }
        requires may { MayMarkPlain self.now.key.setting pass.old var write value raised }
        ensures { pass.new ≡ marked_plain pass.old var result write value raised }
    {
        mark_plain(&self.table.shared, pass, var, write, value, raised)
    }

    /// Loads the hold of a row: no position below it is walked from for the variable. It is no less than this pass has loaded it before.
    pub fn hold_of(&self, pass: &mut Pass, var: u16) -> u64
        requires table { pass.old.own.table ≡ self.now.id }
        requires near { var < VARIABLES }
        ensures pass { pass.new ≡ after pass.old (saw (view_of pass.old) (Hold (var + 1) result)) }
        ensures risen { (m : ℕ) → Contains pass.old.reads (Hold (var + 1) m) → m ≤ result }
    {
        see_hold(&self.table.shared, pass, var + 1)
    }

    /// Loads the hold of a row that the pass holds, which stays as it is until the row is put back, or until the pass raises it: where it
    /// was loaded or raised since the row was taken, it is that.
    pub fn floor_of(&self, pass: &mut Pass, var: u16) -> u64
        requires table { pass.old.own.table ≡ self.now.id }
        requires near { var < VARIABLES }
        requires held { Contains pass.old.own.held (held_at (var + 1) pass.old.own.held) × ((held_at (var + 1) pass.old.own.held).object ≡ suc var) }
        ensures pass { pass.new ≡ after pass.old (saw_floor (view_of pass.old) (held_at (var + 1) pass.old.own.held) result) }
        ensures same { (m : ℕ) → (held_at (var + 1) pass.old.own.held).floor ≡ Some m → result ≡ m }
    {
        see_floor(&self.table.shared, pass, var)
    }

    /// Raises the hold of a row that the pass holds, whose Infos were moved up in `row`.
    pub fn raise_hold(&self, pass: &mut Pass, var: u16, row: &Row, to: u64)
        requires table { pass.old.own.table ≡ self.now.id }
        requires near { var < VARIABLES }
        requires may { (taken : ARow) × MayRaise self.now.key.setting (shelf_of pass.old) (view_of pass.old) (held_at (var + 1) pass.old.own.held) var taken row.now to }
        ensures pass { pass.new ≡ after pass.old (raised (view_of pass.old) (held_at (var + 1) pass.old.own.held) (slot.Row row.now) to) }
    {
        raise_hold(&self.table.shared, pass, var, row, to);
    }

    /// Raises the first segment that the ring has to `to`, where it is below, and answers what it is then. A Trim is stored exactly where
    /// it rose.
    pub fn raise_low(&self, pass: &mut Pass, to: u64) -> u64
        requires table { pass.old.own.table ≡ self.now.id }
        requires spare { 0 < pass.old.spare }
        requires may { MayTrim self.now.key (shelf_of pass.old) (view_of pass.old) to }
        ensures low { (n : ℕ) × (result ≡ max n to) × (pass.new ≡ lowered_pass pass.old n to) }
    {
        let before = lower(&self.table.shared, pass, to);
        if before < to { to } else { before }
    }

    /// Tells all passes to stop. The pass knows then that it did.
    pub fn set_stop(&self, pass: &mut Pass)
        requires table { pass.old.own.table ≡ self.now.id }
        ensures { pass.new ≡ after pass.old (saw (view_of pass.old) SetStop) }
    {
        stop(&self.table.shared, pass);
    }

    /// Whether the passes were told to stop. Once this pass told them, or learnt that they were told, they were.
    pub fn stopped(&self, pass: &mut Pass) -> bool
        requires table { pass.old.own.table ≡ self.now.id }
        ensures pass { (n : ℕ) × (IsTrue result ↔ (n ≢ 0)) × (pass.new ≡ after pass.old (saw (view_of pass.old) (Stop n))) }
        ensures risen { (m : ℕ) → Contains pass.old.reads (Stop m) → m ≢ 0 → IsTrue result }
        ensures own { Contains pass.old.reads SetStop → IsTrue result }
    {
        see_stop(&self.table.shared, pass) != 0
    }

    /// Draws a number on a row that the pass holds, for a look with the row's word, or, with None, for the end of an attempt. It waits
    /// for the attempt's entry, and is above those of the variable that wait already.
    pub fn mark_open(&self, pass: &mut Pass, var: u16, look: Option<i64>) -> u64
        requires table { pass.old.own.table ≡ self.now.id }
        requires near { var < VARIABLES }
        requires may { MayOpenOn pass.old var look }
        ensures opened { pass.new ≡ opened pass.old var result look }
        ensures above { IsAboveDrawn var result pass.old.own.drawn }
    {
        open(&self.table.shared, pass, var, look)
    }

    /// Puts a row back, whose word became the one that the pass owes it. It owes it no more then.
    pub fn put_paid(&self, pass: &mut Pass, var: u16, row: KeptRow)
        requires table { pass.old.own.table ≡ self.now.id }
        requires near { var < VARIABLES }
        requires may { MayPayOn pass.old var row }
        ensures { pass.new ≡ paid_back pass.old var row }
    {
        put_paid(&self.table.shared, pass, var, row);
    }
}
