// Rows that an attempt's end holds.
ghost use Rattle.std.specs.Prelude.{◌≡◌, ◌≤◌, ◌+◌, ◌*◌, length, ◌++◌, ◌∷◌, ◌<◌, [], IfErr, OnOk, OnErr, vec_len, vec_capacity};
ghost use Rattle.gl_model.specs.declared.limits.TheConstants.{TX_VARIABLES};
ghost use Rattle.gl_txn.specs.Costs.{EndCosts};
ghost use Rattle.gl_txn.specs.Holding.{AreUnused, HaveTaken, HaveWrites, WereBusy, write_in};

use gl_model::{Pairs, VarSet};
use gl_state::KeptRow;
use gl_table::{Pass, Shared};

/// A row that was taken, with its variable, and with the word that the attempt writes there, if it does.
#[derive(Drop)]
pub struct TakenRow {
    pub var: u16,
    pub write: Option<i64>,
    pub row: KeptRow,
}

// The word that these write to the variable.
fn word_of(writes: &Pairs, var: u16) -> Option<i64>
    ensures { result ≡ write_in writes.now var }
{
    match writes.of(var) {
        None => None,
        Some(pair) => Some(pair.value),
    }
}

fn keep(rows: &mut Vec<TakenRow>, var: u16, write: Option<i64>, row: KeptRow)
    requires { vec_len rows.old < vec_capacity rows.old }
    ensures items { rows.new.items ≡ rows.old.items ++ (record { var = var; write = write; row = row }) ∷ [] }
    ensures room { vec_capacity rows.new ≡ vec_capacity rows.old }
{
    rows.push_reserved(TakenRow { var, write, row });
}

// Puts the last row back, on which no access was drawn.
fn put_last(shared: &Shared, pass: &mut Pass, rows: &mut Vec<TakenRow>)
    requires table { pass.old.own.table ≡ shared.now.id }
    requires held { AreUnused pass.old.own.held rows.old.items }
    requires some { 0 < vec_len rows.old }
    ensures pass { pass.new ≡ record pass.old { own = record pass.old.own { held = pass.new.own.held }; moves = pass.new.moves } }
    ensures cost { EndCosts 0 2 pass.old pass.new }
    ensures held { AreUnused pass.new.own.held rows.new.items }
    ensures len { vec_len rows.new + 1 ≡ vec_len rows.old }
    ensures room { vec_capacity rows.new ≡ vec_capacity rows.old }
{
    let Some(taken) = rows.pop() else {
        unreachable!()
    };
    let TakenRow { var, write: _, row } = taken;
    shared.put_row(pass, var, row);
}

// Puts all of them back, on which no access was drawn.
pub(crate) fn put_rows(shared: &Shared, pass: &mut Pass, rows: &mut Vec<TakenRow>)
    requires table { pass.old.own.table ≡ shared.now.id }
    requires held { AreUnused pass.old.own.held rows.old.items }
    ensures pass { pass.new ≡ record pass.old { own = record pass.old.own { held = [] }; moves = pass.new.moves } }
    ensures cost { EndCosts 0 (2 * length rows.old.items) pass.old pass.new }
    ensures rows { rows.new.items ≡ [] }
    ensures room { vec_capacity rows.new ≡ vec_capacity rows.old }
{
    for _ in 0..rows.len() {
        put_last(shared, pass, rows);
    }
}

// Takes the rows of these variables. Where the turn of one is held, those that were taken go back, and the pass that holds it is named.
pub(crate) fn take_rows(
    shared: &Shared,
    pass: &mut Pass,
    vars: &VarSet,
    writes: &Pairs,
    rows: &mut Vec<TakenRow>,
) -> Result<(), u8>
    requires table { pass.old.own.table ≡ shared.now.id }
    requires held { pass.old.own.held ≡ [] }
    requires empty { rows.old.items ≡ [] }
    requires room { TX_VARIABLES ≤ vec_capacity rows.old }
    ensures ok { OnOk result (HaveTaken pass.old pass.new vars.now rows.new.items) }
    ensures busy { IfErr result (λ by. WereBusy vars.now by pass.old pass.new) }
    ensures cost { OnOk result (EndCosts 0 (2 * length vars.now) pass.old pass.new) }
    ensures busy_cost { OnErr result (EndCosts 0 (4 * length vars.now + 1) pass.old pass.new) }
    ensures none { OnErr result (rows.new.items ≡ []) }
    ensures writes { OnOk result (HaveWrites writes.now rows.new.items) }
    ensures room { vec_capacity rows.new ≡ vec_capacity rows.old }
{
    vars.keeps();
    let ids = vars.ids();
    for var in ids {
        match shared.take_row(pass, *var) {
            Ok(row) => keep(rows, *var, word_of(writes, *var), row),
            Err(busy) => {
                put_rows(shared, pass, rows);
                return Err(busy.by);
            }
        }
    }
    Ok(())
}
