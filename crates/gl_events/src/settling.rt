// Raising the first segment of the ring to that of the least hold.
ghost use Rattle.std.specs.Prelude.{◌≡◌, ◌⊎◌, ◌≤◌, ◌<◌};
ghost use Rattle.gl_model.specs.declared.limits.TheConstants.{VARIABLES};
ghost use Rattle.gl_events.specs.Settling.{MaySettle, AreLoaded, IsSettled};

use gl_model::VARIABLES;
use gl_segments::segment_of;
use gl_table::{Pass, Shared};

fn lesser(a: u64, b: u64) -> u64
    ensures first { result ≤ a }
    ensures second { result ≤ b }
    ensures one { (result ≡ a) ⊎ (result ≡ b) }
{
    if b < a { b } else { a }
}

// Loads the holds of all variables, and answers the least.
fn load_holds(shared: &Shared, pass: &mut Pass) -> u64
    requires table { pass.old.own.table ≡ shared.now.id }
    ensures { AreLoaded VARIABLES pass.old pass.new result }
{
    let mut least = u64::MAX;
    for var in 0..VARIABLES {
        least = lesser(least, shared.hold_of(pass, var));
    }
    least
}

/// Loads the holds of all variables, raises the first segment of the ring to that of the least, where it is below, and answers what it is
/// then.
pub fn settle(shared: &Shared, pass: &mut Pass) -> u64
    requires may { MaySettle shared.now pass.old }
    ensures settled { IsSettled shared.now pass.old pass.new result }
{
    let least = load_holds(shared, pass);
    shared.raise_low(pass, segment_of(shared.ring(), least))
}
