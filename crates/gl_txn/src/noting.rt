// The rows after a commit.
ghost use Rattle.std.specs.Prelude.{◌≡◌, ◌<◌, ◌+◌, ◌*◌, length, [], vec_len};
ghost use Rattle.gl_model.specs.declared.limits.TheConstants.{THREADS};
ghost use Rattle.gl_txn.specs.Costs.{EndCosts};
ghost use Rattle.gl_txn.specs.Noting.{IsNotedRow, AreCommitted};

use crate::taken::TakenRow;
use gl_judge::note;
use gl_model::{Question, Row};
use gl_table::{Pass, Shared};

// Notes the access by a commit in the row, behind the event before this position.
fn store(row: &mut Row, base: &Question, write: Option<i64>, at: u64)
    requires { base.now.thread < THREADS }
    ensures { IsNotedRow base.now at write row.old row.new }
{
    let q = Question {
        thread: base.thread,
        write: write.is_some(),
        commit: base.commit,
        held: base.held,
    };
    note(row, &q, at);
    if let Some(value) = write {
        row.value = value;
    }
}

// Puts the last row back as it is after the commit.
fn put_noted(shared: &Shared, pass: &mut Pass, rows: &mut Vec<TakenRow>, base: &Question, at: u64)
    requires table { pass.old.own.table ≡ shared.now.id }
    requires held { AreCommitted pass.old rows.old.items base.now at }
    requires some { 0 < vec_len rows.old }
    ensures pass { pass.new ≡ record pass.old { own = record pass.old.own { held = pass.new.own.held }; moves = pass.new.moves } }
    ensures cost { EndCosts 0 2 pass.old pass.new }
    ensures held { AreCommitted pass.new rows.new.items base.now at }
    ensures len { vec_len rows.new + 1 ≡ vec_len rows.old }
{
    let Some(taken) = rows.pop() else {
        unreachable!()
    };
    let TakenRow {
        var,
        write,
        mut row,
    } = taken;
    store(row.row_mut(), base, write, at);
    shared.put_row(pass, var, row);
}

// Puts all of them back.
pub(crate) fn put_all_noted(
    shared: &Shared,
    pass: &mut Pass,
    rows: &mut Vec<TakenRow>,
    base: &Question,
    at: u64,
)
    requires table { pass.old.own.table ≡ shared.now.id }
    requires held { AreCommitted pass.old rows.old.items base.now at }
    ensures pass { pass.new ≡ record pass.old { own = record pass.old.own { held = [] }; moves = pass.new.moves } }
    ensures cost { EndCosts 0 (2 * length rows.old.items) pass.old pass.new }
{
    for _ in 0..rows.len() {
        put_noted(shared, pass, rows, base, at);
    }
}
