// Dropping an attempt: its numbers are drawn, its entry is stored, and its rows go back.
ghost use Rattle.std.specs.Prelude.{◌≡◌, ℕ, ◌+◌, ◌*◌, ◌<◌, ◌++◌, ◌∷◌, [], List, Option, None, length, map};
ghost use Rattle.gl_model.specs.declared.tx.Why.TheVariants.{Changed, Raised};
ghost use Rattle.gl_model.specs.declared.limits.TheConstants.{VARIABLES, TX_VARIABLES};
ghost use Rattle.gl_model.specs.Rising.{Rises};
ghost use Rattle.gl_model.specs.Kept.{AreVariables};
ghost use Rattle.gl_model.specs.Records.{variables_of};
ghost use Rattle.gl_rule.specs.View.{Held as AHeld};
ghost use Rattle.gl_txn.specs.Changing.{IsFirstChange};
ghost use Rattle.gl_txn.specs.Costs.{EndCosts};
ghost use Rattle.gl_txn.specs.Drawing.{MayNumber, HasDrawn, HasDropped, attempt_in, numbered};
ghost use Rattle.gl_txn.specs.Holding.{AreHeld, undrawn, vars_of};
ghost use Rattle.gl_txn.specs.Racing.{RacesOn};
ghost use Rattle.gl_txn.specs.Trying.{Draws};
ghost use Rattle.gl_txn.specs.declared.stops.TxEnd.TheVariants.{Changed as WasChanged, Raised as WasRaised};

use crate::changing::Change;
use crate::stops::TxEnd;
use crate::taken::{TakenRow, put_rows};
use gl_model::{Number, Numbers, Tx, Why};
use gl_table::{Pass, Shared};

// Puts the number behind the others, whose variables are all below.
fn add(numbers: &mut Numbers, var: u16, nth: u64)
    requires there { var < VARIABLES }
    requires room { length numbers.old < TX_VARIABLES }
    requires last { Rises (numbered numbers.old ++ var ∷ []) }
    ensures { numbers.new ≡ numbers.old ++ (record { var = var; nth = nth }) ∷ [] }
{
    let Ok(()) = numbers.put(Number { var, nth }) else {
        unreachable!()
    };
}

// Draws a number on each of these rows.
pub(crate) fn draw_numbers(
    shared: &Shared,
    pass: &mut Pass,
    rows: &[TakenRow],
    numbers: &mut Numbers,
)
    requires table { pass.old.own.table ≡ shared.now.id }
    requires may { MayNumber pass.old rows.now }
    requires none { numbers.old ≡ [] }
    ensures drawn { (list : Option AHeld) (tails : List ℕ) → AreHeld pass.old.own.held list rows.now tails undrawn → HasDrawn pass.old pass.new list rows.now tails numbers.new }
    ensures all { numbered numbers.new ≡ vars_of rows.now }
    ensures cost { EndCosts 0 (length rows.now) pass.old pass.new }
{
    for taken in rows {
        let nth = shared.mark_open(pass, taken.var, None);
        add(numbers, taken.var, nth);
    }
}

// Drops the attempt since this word was changed: a number is drawn on its variable alone.
pub(crate) fn drop_changed(
    shared: &Shared,
    pass: &mut Pass,
    tx: Box<Tx>,
    rows: &mut Vec<TakenRow>,
    change: &Change,
) -> TxEnd
    requires table { pass.old.own.table ≡ shared.now.id }
    requires spare { 0 < pass.old.spare }
    requires may { MayNumber pass.old rows.old.items }
    requires held { AreHeld pass.old.own.held None rows.old.items [] undrawn }
    requires draws { Draws (attempt_in tx.value) pass.old.own }
    requires none { tx.value.numbers ≡ [] }
    requires change { IsFirstChange tx.value.looks rows.old.items change.now }
    requires of { vars_of rows.old.items ≡ variables_of tx.value }
    requires looks { AreVariables (map (λ l. l.var) tx.value.looks) }
    ensures dropped { HasDropped tx.value (Changed change.now.var change.now.read change.now.found) pass.old pass.new }
    ensures cost { EndCosts 0 (2 * length rows.old.items + 1) pass.old pass.new }
    ensures end { result ≡ WasChanged change.now.var change.now.read change.now.found }
{
    let mut tx = tx;
    let var = change.var;
    let nth = shared.mark_open(pass, var, None);
    add(&mut tx.numbers, var, nth);
    let why = Why::Changed {
        var,
        read: change.read,
        found: change.found,
    };
    pass.abort(tx, why);
    put_rows(shared, pass, rows);
    TxEnd::Changed {
        var,
        read: change.read,
        found: change.found,
    }
}

// Drops the attempt since its commit would complete a race on this variable: a number is drawn on each of its variables.
pub(crate) fn drop_raised(
    shared: &Shared,
    pass: &mut Pass,
    tx: Box<Tx>,
    rows: &mut Vec<TakenRow>,
    var: u16,
) -> TxEnd
    requires table { pass.old.own.table ≡ shared.now.id }
    requires spare { 0 < pass.old.spare }
    requires may { MayNumber pass.old rows.old.items }
    requires draws { Draws (attempt_in tx.value) pass.old.own }
    requires none { tx.value.numbers ≡ [] }
    requires raised { RacesOn pass.old rows.old.items tx.value var }
    ensures dropped { HasDropped tx.value (Raised var) pass.old pass.new }
    ensures cost { EndCosts 0 (3 * length rows.old.items) pass.old pass.new }
    ensures end { result ≡ WasRaised var }
{
    let mut tx = tx;
    draw_numbers(shared, pass, rows.as_slice(), &mut tx.numbers);
    pass.abort(tx, Why::Raised { var });
    put_rows(shared, pass, rows);
    TxEnd::Raised { var }
}
