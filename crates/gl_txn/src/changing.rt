// Whether a word that the attempt looked at was changed.
ghost use Rattle.std.specs.Prelude.{MatchOption};
ghost use Rattle.gl_txn.specs.Changing.{IsChangeOf, AreUnchangedIn, IsFirstChange};

use crate::taken::TakenRow;
use gl_model::Looks;

/// A variable with another word than the attempt had read.
#[derive(Clone, Copy)]
pub struct Change {
    pub var: u16,
    pub read: i64,
    pub found: i64,
}

// Whether the row has another word than the look of its variable.
fn change_of(taken: &TakenRow, looks: &Looks) -> Option<Change>
    ensures { IsChangeOf looks.now taken.now result }
{
    match looks.of(taken.var) {
        None => None,
        Some(look) => {
            let found = taken.row.row().value;
            if found == look.value {
                return None;
            }
            Some(Change {
                var: taken.var,
                read: look.value,
                found,
            })
        }
    }
}

// The first of them that was changed.
pub(crate) fn first_change(rows: &[TakenRow], looks: &Looks) -> Option<Change>
    ensures { MatchOption result (AreUnchangedIn looks.now rows.now) (IsFirstChange looks.now rows.now) }
{
    for taken in rows {
        let change = change_of(taken, looks);
        if change.is_some() {
            return change;
        }
    }
    None
}
