// The end of an attempt.
ghost use Rattle.std.specs.Prelude.{◌≡◌, ◌<◌, ◌≤◌, ◌+◌, ◌*◌, length, IfOk, IfErr, OnOk, OnErr, [], vec_capacity};
ghost use Rattle.gl_model.specs.declared.limits.TheConstants.{TX_VARIABLES};
ghost use Rattle.gl_model.specs.Records.{variables_of};
ghost use Rattle.gl_rule.specs.Objects.{capacity};
ghost use Rattle.gl_txn.specs.Costs.{EndCosts, IsEndCost, stored_by};
ghost use Rattle.gl_txn.specs.Changing.{AreUnchangedIn};
ghost use Rattle.gl_txn.specs.Drawing.{attempt_in};
ghost use Rattle.gl_txn.specs.Publishing.{IsReady};
ghost use Rattle.gl_txn.specs.Stages.{HoldsRows, EndsAs, IsPutBack, ReachedEnd, ReachedWait};
ghost use Rattle.gl_table.specs.PassView.{shelf_of};
ghost use Rattle.gl_txn.specs.Trying.{MayTry};
ghost use Rattle.gl_txn.specs.Ending.{HasEnded, IsCause, IsCauseBy, IsWaitCause, IsWaitBy, kept_of};

use crate::attempt::Txn;
use crate::changing::first_change;
use crate::dropping::{drop_changed, drop_raised};
use crate::publishing::{publish, reach_list};
use crate::racing::first_race;
use crate::stops::{TxEnd, TxWait};
use crate::taken::{TakenRow, put_rows, take_rows};
use gl_model::{Pairs, Question, Tx, VarSet};
use gl_rows::Window;
use gl_shortcut::Cuts;
use gl_table::{Pass, Shared};
use std::mem::replace;

// The end of an attempt against which nothing speaks: it is committed, where the list is free and has room.
fn end_clear(
    shared: &Shared,
    pass: &mut Pass,
    tx: Box<Tx>,
    vars: &VarSet,
    rows: &mut Vec<TakenRow>,
) -> Result<TxEnd, (Box<Tx>, TxWait)>
    requires table { pass.old.own.table ≡ shared.now.id }
    requires spare { 0 < pass.old.spare }
    requires ready { IsReady pass.old rows.old.items tx.value }
    requires none { tx.value.numbers ≡ [] }
    requires vars { vars.now ≡ variables_of tx.value }
    ensures done { IfOk result (λ e. EndsAs tx.value e pass.old pass.new) }
    ensures cause { IfOk result (λ e. ReachedEnd shared.now e pass.old pass.new) }
    ensures wait { IfErr result (λ w. ReachedWait shared.now w.1 pass.old pass.new) }
    ensures stop { IfErr result (λ w. w.0.value ≡ tx.value) }
    ensures cost { IfOk result (λ e. EndCosts (stored_by e) (3 * length rows.old.items + 7) pass.old pass.new) }
    ensures wait_cost { OnErr result (EndCosts 0 (2 * length rows.old.items + 6) pass.old pass.new) }
    ensures back { OnErr result (IsPutBack pass.old pass.new) }
    ensures rows { OnErr result (rows.new.items ≡ []) }
    ensures room { OnErr result (vec_capacity rows.new ≡ vec_capacity rows.old) }
{
    match reach_list(shared, pass) {
        Err(wait) => {
            put_rows(shared, pass, rows);
            Err((tx, wait))
        }
        Ok(state) => Ok(TxEnd::Done {
            at: publish(shared, pass, tx, vars, rows, state),
        }),
    }
}

// The end of an attempt whose words are unchanged: it is dropped where its commit would complete a race.
fn end_unchanged(
    shared: &Shared,
    pass: &mut Pass,
    tx: Box<Tx>,
    vars: &VarSet,
    rows: &mut Vec<TakenRow>,
    cuts: &Cuts,
    window: &mut Window,
) -> Result<TxEnd, (Box<Tx>, TxWait)>
    requires table { pass.old.own.table ≡ shared.now.id }
    requires spare { 0 < pass.old.spare }
    requires holds { HoldsRows pass.old rows.old.items tx.value }
    requires unchanged { AreUnchangedIn tx.value.looks rows.old.items }
    requires none { tx.value.numbers ≡ [] }
    requires vars { vars.now ≡ variables_of tx.value }
    requires window { capacity shared.now.key ≤ window.old }
    ensures done { IfOk result (λ e. EndsAs tx.value e pass.old pass.new) }
    ensures cause { IfOk result (λ e. IsCauseBy shared.now (attempt_in tx.value) e (shelf_of pass.old) pass.old.seen pass.old.reads rows.old.items pass.new) }
    ensures wait { IfErr result (λ w. IsWaitBy shared.now (attempt_in tx.value) w.1 (shelf_of pass.old) pass.old.seen pass.old.reads rows.old.items pass.new) }
    ensures stop { IfErr result (λ w. w.0.value ≡ tx.value) }
    ensures cost { IfOk result (λ e. EndCosts (stored_by e) (3 * length rows.old.items + 8) pass.old pass.new) }
    ensures wait_cost { OnErr result (EndCosts 0 (2 * length rows.old.items + 7) pass.old pass.new) }
    ensures back { OnErr result (IsPutBack pass.old pass.new) }
    ensures rows { OnErr result (rows.new.items ≡ []) }
    ensures room { OnErr result (vec_capacity rows.new ≡ vec_capacity rows.old) }
    ensures window { window.new ≡ window.old }
{
    tx.looks.keeps();
    shared.tail(pass);
    let base = Question {
        thread: pass.id(),
        write: false,
        commit: Some(*vars),
        held: pass.monitors(),
    };
    match first_race(
        shared,
        pass,
        rows.as_slice(),
        &base,
        &tx.writes,
        cuts,
        window,
    ) {
        Some(var) => Ok(drop_raised(shared, pass, tx, rows, var)),
        None => end_clear(shared, pass, tx, vars, rows),
    }
}

// The end of an attempt whose rows are held: it is dropped where a word was changed.
fn end_taken(
    shared: &Shared,
    pass: &mut Pass,
    tx: Box<Tx>,
    vars: &VarSet,
    rows: &mut Vec<TakenRow>,
    cuts: &Cuts,
    window: &mut Window,
) -> Result<TxEnd, (Box<Tx>, TxWait)>
    requires table { pass.old.own.table ≡ shared.now.id }
    requires spare { 0 < pass.old.spare }
    requires holds { HoldsRows pass.old rows.old.items tx.value }
    requires none { tx.value.numbers ≡ [] }
    requires vars { vars.now ≡ variables_of tx.value }
    requires window { capacity shared.now.key ≤ window.old }
    ensures done { IfOk result (λ e. EndsAs tx.value e pass.old pass.new) }
    ensures cause { IfOk result (λ e. IsCauseBy shared.now (attempt_in tx.value) e (shelf_of pass.old) pass.old.seen pass.old.reads rows.old.items pass.new) }
    ensures wait { IfErr result (λ w. IsWaitBy shared.now (attempt_in tx.value) w.1 (shelf_of pass.old) pass.old.seen pass.old.reads rows.old.items pass.new) }
    ensures stop { IfErr result (λ w. w.0.value ≡ tx.value) }
    ensures cost { IfOk result (λ e. EndCosts (stored_by e) (3 * length rows.old.items + 8) pass.old pass.new) }
    ensures wait_cost { OnErr result (EndCosts 0 (2 * length rows.old.items + 7) pass.old pass.new) }
    ensures back { OnErr result (IsPutBack pass.old pass.new) }
    ensures rows { OnErr result (rows.new.items ≡ []) }
    ensures room { OnErr result (vec_capacity rows.new ≡ vec_capacity rows.old) }
    ensures window { window.new ≡ window.old }
{
    tx.looks.keeps();
    match first_change(rows.as_slice(), &tx.looks) {
        Some(change) => Ok(drop_changed(shared, pass, tx, rows, &change)),
        None => end_unchanged(shared, pass, tx, vars, rows, cuts, window),
    }
}

// The end of an attempt with these looks and writes.
fn end_attempt(
    shared: &Shared,
    pass: &mut Pass,
    tx: Box<Tx>,
    vars: &VarSet,
    rows: &mut Vec<TakenRow>,
    cuts: &Cuts,
    window: &mut Window,
) -> Result<TxEnd, (Box<Tx>, TxWait)>
    requires may { MayTry shared.now pass.old (attempt_in tx.value) }
    requires spare { 0 < pass.old.spare }
    requires empty { rows.old.items ≡ [] }
    requires room { TX_VARIABLES ≤ vec_capacity rows.old }
    requires none { tx.value.numbers ≡ [] }
    requires vars { vars.now ≡ variables_of tx.value }
    requires window { capacity shared.now.key ≤ window.old }
    ensures done { IfOk result (λ e. EndsAs tx.value e pass.old pass.new) }
    ensures cause { IfOk result (λ e. IsCause shared.now (attempt_in tx.value) e pass.old pass.new) }
    ensures wait { IfErr result (λ w. IsWaitCause shared.now (attempt_in tx.value) w.1 pass.old pass.new) }
    ensures stop { IfErr result (λ w. w.0.value ≡ tx.value) }
    ensures cost { IfOk result (λ e. IsEndCost (attempt_in tx.value) (stored_by e) pass.old pass.new) }
    ensures wait_cost { OnErr result (IsEndCost (attempt_in tx.value) 0 pass.old pass.new) }
    ensures back { OnErr result (IsPutBack pass.old pass.new) }
    ensures rows { OnErr result (rows.new.items ≡ []) }
    ensures room { OnErr result (vec_capacity rows.new ≡ vec_capacity rows.old) }
    ensures window { window.new ≡ window.old }
{
    match take_rows(shared, pass, vars, &tx.writes, rows) {
        Err(by) => Err((tx, TxWait::Busy { by })),
        Ok(()) => end_taken(shared, pass, tx, vars, rows, cuts, window),
    }
}

impl Txn {
    /// Ends the attempt: with `keep` its looks and its writes are committed, else its looks alone. All its rows are taken. Where a word
    /// that it looked at was changed, it is dropped as Changed; else, where its commit would complete a race, it is dropped as Raised, at
    /// the least such variable; else it is committed. It waits, and is as it was, where this call read a turn as held by another pass, or
    /// where the ring had no room.
    pub fn commit(
        self,
        shared: &Shared,
        pass: &mut Pass,
        keep: bool,
        cuts: &Cuts,
        window: &mut Window,
    ) -> Result<TxEnd, (Txn, TxWait)>
        requires may { MayTry shared.now pass.old self }
        requires spare { 0 < pass.old.spare }
        requires window { capacity shared.now.key ≤ window.old }
        ensures done { IfOk result (λ e. HasEnded self keep e pass.old.own pass.new.own) }
        ensures cause { IfOk result (λ e. IsCause shared.now (kept_of keep self) e pass.old pass.new) }
        ensures wait { IfErr result (λ w. IsWaitCause shared.now (kept_of keep self) w.1 pass.old pass.new) }
        ensures stop { IfErr result (λ w. w.0 ≡ self) }
        ensures cost { IfOk result (λ e. IsEndCost (kept_of keep self) (stored_by e) pass.old pass.new) }
        ensures wait_cost { OnErr result (IsEndCost (kept_of keep self) 0 pass.old pass.new) }
        ensures kept { OnErr result (pass.new.own ≡ pass.old.own) }
        ensures quiet { pass.new.quiet ≡ pass.old.quiet }
        ensures spent { OnOk result (pass.old.spare ≡ pass.new.spare + 1) }
        ensures spare { OnErr result (pass.new.spare ≡ pass.old.spare) }
        ensures window { window.new ≡ window.old }
    {
        let Txn {
            mut tx,
            looked,
            all,
            mut rows,
        } = self;
        if keep {
            return match end_attempt(shared, pass, tx, &all, &mut rows, cuts, window) {
                Ok(end) => Ok(end),
                Err((tx, wait)) => Err((
                    Txn {
                        tx,
                        looked,
                        all,
                        rows,
                    },
                    wait,
                )),
            };
        }
        let writes = replace(&mut tx.writes, Pairs::empty());
        match end_attempt(shared, pass, tx, &looked, &mut rows, cuts, window) {
            Ok(end) => Ok(end),
            Err((mut tx, wait)) => {
                tx.writes = writes;
                Err((
                    Txn {
                        tx,
                        looked,
                        all,
                        rows,
                    },
                    wait,
                ))
            }
        }
    }
}
