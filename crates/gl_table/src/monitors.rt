// The monitors that a thread is in.
ghost use Rattle.std.specs.Prelude.{List};
ghost use Rattle.gl_model.specs.declared.event.Stamp.{Stamp};
ghost use Rattle.gl_model.specs.Infos.{AreLeastOwned};
ghost use Rattle.gl_model.specs.Machine.{Setting, State, Allows};
ghost use Rattle.gl_draws.specs.Events.{AreEvents};
ghost use Rattle.gl_rule.specs.Levels.{levels_of, AreLeastEntered};

use crate::pass::Pass;
use gl_model::Held;

impl Pass {
    /// The least monitors that its thread is in by its own list, as many as are kept: they are the least that it owns behind each list of
    /// events that has its own, so behind each that it cannot tell from the table's.
    pub fn monitors(&self) -> Held
        ensures is { AreLeastEntered (levels_of self.now.own.mine) result }
        ensures owned { (setting : Setting) (l : List Stamp) (now : State) → AreEvents l self.now.own.id self.now.own.mine → Allows setting l now → AreLeastOwned now self.now.own.id result }
    {
        self.mine.monitors()
    }
}
