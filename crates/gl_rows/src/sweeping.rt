// Making room in the ring: rows are moved up, and the first segment is raised.
ghost use Rattle.std.specs.Prelude.{◌≡◌, ◌-◌, ◌<◌, ◌≤◌, []};
ghost use Rattle.gl_events.specs.Settling.{MaySettle};
ghost use Rattle.gl_model.specs.declared.limits.TheConstants.{VARIABLES};
ghost use Rattle.gl_rule.specs.Objects.{capacity};
ghost use Rattle.gl_rows.specs.Sweeping.{IsTried, AreTried, IsSwept};

use crate::advancing::advance_row;
use crate::window::Window;
use gl_events::settle;
use gl_model::VARIABLES;
use gl_segments::target;
use gl_table::{Pass, Shared};

// Tries once to move a row up, where its hold is below the position; a busy row stays.
fn try_row(shared: &Shared, pass: &mut Pass, var: u16, to: u64, window: &mut Window)
    requires table { pass.old.own.table ≡ shared.now.id }
    requires near { var < VARIABLES }
    requires held { pass.old.own.held ≡ [] }
    requires seen { to ≤ pass.old.seen }
    requires window { capacity shared.now.key ≤ window.old }
    ensures tried { IsTried var to pass.old pass.new }
    ensures window { window.new ≡ window.old }
{
    let hold = shared.hold_of(pass, var);
    if to <= hold {
        return;
    }
    let _ = advance_row(shared, pass, var, to, window);
}

// Tries each row once.
fn try_rows(shared: &Shared, pass: &mut Pass, to: u64, window: &mut Window)
    requires table { pass.old.own.table ≡ shared.now.id }
    requires held { pass.old.own.held ≡ [] }
    requires seen { to ≤ pass.old.seen }
    requires window { capacity shared.now.key ≤ window.old }
    ensures tried { AreTried VARIABLES to pass.old pass.new }
    ensures window { window.new ≡ window.old }
{
    for var in 0..VARIABLES {
        try_row(shared, pass, var, to, window);
    }
}

/// Makes room in the ring: tries once to move each row up whose hold lies before the tail's segment, passes over rows that are held by
/// others, and raises the first segment to that of the least hold. It answers the first segment, which is at least the tail's segment, but
/// for a row whose turn this call read as held by another pass: then it is at least the segment of that row's hold, as it was loaded after
/// the rows were tried.
pub fn sweep(shared: &Shared, pass: &mut Pass, window: &mut Window) -> u64
    requires may { MaySettle shared.now pass.old }
    requires window { capacity shared.now.key ≤ window.old }
    ensures swept { IsSwept shared.now pass.old pass.new result }
    ensures quiet { pass.new.quiet ≡ pass.old.quiet }
    ensures spare { pass.old.spare - 1 ≤ pass.new.spare }
    ensures window { window.new ≡ window.old }
{
    let tail = shared.tail(pass);
    let to = target(shared.ring(), tail);
    try_rows(shared, pass, to, window);
    settle(shared, pass)
}
