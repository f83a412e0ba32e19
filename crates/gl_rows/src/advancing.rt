// Moving a row's Infos up, and its hold.
ghost use Rattle.std.specs.Prelude.{◌≡◌, ◌≤◌, ◌<◌, List, [], IfOk, IfErr, vec_capacity};
ghost use Rattle.gl_model.specs.declared.event.Stamp.{Stamp as AStamp};
ghost use Rattle.gl_model.specs.declared.limits.TheConstants.{VARIABLES};
ghost use Rattle.gl_model.specs.declared.row.Info.{Info as AnInfo};
ghost use Rattle.gl_model.specs.Machine.{Setting};
ghost use Rattle.gl_draws.specs.Moved.{IsRowMoved};
ghost use Rattle.gl_draws.specs.RowFacts.{IsWithin};
ghost use Rattle.gl_rule.specs.Fitting.{IsFitting};
ghost use Rattle.gl_rule.specs.Objects.{capacity};
ghost use Rattle.gl_rule.specs.Values.{InRow};
ghost use Rattle.gl_table.specs.PassView.{shelf_of};
ghost use Rattle.gl_rows.specs.Advancing.{HasAdvanced};
ghost use Rattle.gl_rows.specs.Walks.{HoldsRow, HasWalkedTo, ReadBusy};

use crate::moving::move_row;
use crate::walking::{least, load};
use crate::window::Window;
use gl_model::{Row, Stamp};
use gl_table::{Busy, Pass, Shared};

// The row's Infos that stand before a position are moved up to it, over the events between, which are loaded.
fn lift_row(shared: &Shared, pass: &mut Pass, row: &mut Row, to: u64, window: &mut Vec<Stamp>)
    requires table { pass.old.own.table ≡ shared.now.id }
    requires held { HoldsRow pass.old row.old }
    requires within { IsWithin row.old pass.old.seen }
    requires to { to ≤ pass.old.seen }
    requires room { capacity shared.now.key ≤ vec_capacity window.old }
    ensures pass { HasWalkedTo row.old to pass.old pass.new }
    ensures moved { (setting : Setting) (l : List AStamp) → IsFitting setting (shelf_of pass.new) pass.new.seen pass.new.known l → IsRowMoved l row.old row.new }
    ensures above { (i : AnInfo) → InRow row.new i → to ≤ i.pos }
    ensures room { vec_capacity window.new ≡ vec_capacity window.old }
{
    let from = least(row, to);
    load(shared, pass, from, to, window);
    move_row(row, from, to, window.as_slice());
}

/// Moves each Info of the variable's row that stands before a position up to it, with its lockset after the events in between, and raises
/// the row's hold to the position where it is below. The row stands for the same accesses then. Ok answers the hold, as it was loaded while
/// the row was held: it is at least that position. Busy comes only where this call read the row's turn as held by another pass; nothing
/// changed then.
pub fn advance_row(
    shared: &Shared,
    pass: &mut Pass,
    var: u16,
    to: u64,
    window: &mut Window,
) -> Result<u64, Busy>
    requires table { pass.old.own.table ≡ shared.now.id }
    requires near { var < VARIABLES }
    requires held { pass.old.own.held ≡ [] }
    requires seen { to ≤ pass.old.seen }
    requires window { capacity shared.now.key ≤ window.old }
    ensures hold { IfOk result (λ hold. HasAdvanced var to pass.old hold pass.new) }
    ensures own { pass.new.own ≡ pass.old.own }
    ensures spare { pass.new.spare ≡ pass.old.spare }
    ensures busy { IfErr result (λ b. ReadBusy var b.by pass.old pass.new) }
    ensures later { pass.old.seen ≤ pass.new.seen }
    ensures quiet { pass.new.quiet ≡ pass.old.quiet }
    ensures window { window.new ≡ window.old }
{
    let mut kept = match shared.take_row(pass, var) {
        Ok(kept) => kept,
        Err(busy) => return Err(busy),
    };
    let before = shared.floor_of(pass, var);
    if to <= before {
        shared.put_row(pass, var, kept);
        return Ok(before);
    }
    let _tail = shared.tail(pass);
    lift_row(shared, pass, kept.row_mut(), to, &mut window.events);
    shared.raise_hold(pass, var, kept.row(), to);
    let hold = shared.floor_of(pass, var);
    shared.put_row(pass, var, kept);
    Ok(hold)
}
