// Publishing the commit of an attempt.
ghost use Rattle.std.specs.Prelude.{◌≡◌, ◌+◌, ◌*◌, ◌<◌, length, IfOk, IfErr, OnOk, OnErr, []};
ghost use Rattle.gl_rule.specs.Taken.{StateTold};
ghost use Rattle.gl_table.specs.PassView.{view_of};
ghost use Rattle.gl_table.specs.Putting.{DoesNotHold};
ghost use Rattle.gl_model.specs.Records.{variables_of};
ghost use Rattle.gl_txn.specs.Costs.{EndCosts};
ghost use Rattle.gl_txn.specs.Publishing.{HasReached, IsReachStop, MayPublish, HasPublished};

use crate::dropping::draw_numbers;
use crate::noting::put_all_noted;
use crate::stops::TxWait;
use crate::taken::TakenRow;
use gl_model::{Question, Tx, VarSet};
use gl_segments::room;
use gl_state::ListState;
use gl_table::{Pass, Shared};

// Takes the list where it has room for an event; else it is put back.
pub(crate) fn reach_list(shared: &Shared, pass: &mut Pass) -> Result<ListState, TxWait>
    requires table { pass.old.own.table ≡ shared.now.id }
    requires free { DoesNotHold pass.old.own.held 0 }
    ensures ok { IfOk result (λ l. HasReached shared.now pass.old l pass.new) }
    ensures told { IfOk result (λ l. StateTold shared.now.key.setting (view_of pass.old) l) }
    ensures stop { IfErr result (λ w. IsReachStop shared.now w pass.old pass.new) }
    ensures cost { OnOk result (EndCosts 0 4 pass.old pass.new) }
    ensures stop_cost { OnErr result (EndCosts 0 6 pass.old pass.new) }
{
    let state = match shared.take_list(pass) {
        Ok(state) => state,
        Err(busy) => return Err(TxWait::Busy { by: busy.by }),
    };
    let low = shared.low(pass);
    let tail = shared.tail(pass);
    if !room(shared.ring(), low, tail) {
        shared.put_list(pass, state, false);
        return Err(TxWait::RingFull { low, tail });
    }
    Ok(state)
}

// Publishes the commit, with a number on each of its variables, and puts the list and the rows back.
pub(crate) fn publish(
    shared: &Shared,
    pass: &mut Pass,
    tx: Box<Tx>,
    vars: &VarSet,
    rows: &mut Vec<TakenRow>,
    state: ListState,
) -> u64
    requires table { pass.old.own.table ≡ shared.now.id }
    requires spare { 0 < pass.old.spare }
    requires may { MayPublish shared.now pass.old rows.old.items tx.value state }
    requires none { tx.value.numbers ≡ [] }
    requires vars { vars.now ≡ variables_of tx.value }
    ensures published { HasPublished tx.value result pass.old pass.new }
    ensures cost { EndCosts 5 (3 * length rows.old.items + 3) pass.old pass.new }
    ensures here { result ≡ pass.old.seen }
{
    let mut tx = tx;
    vars.keeps();
    draw_numbers(shared, pass, rows.as_slice(), &mut tx.numbers);
    let at = shared.publish_commit(pass, tx, vars, &state);
    shared.put_list(pass, state, false);
    let behind = pass.seen();
    let base = Question {
        thread: pass.id(),
        write: false,
        commit: Some(*vars),
        held: pass.monitors(),
    };
    put_all_noted(shared, pass, rows, &base, behind);
    at
}
