// Laws of the definitions.
ghost use Rattle.std.specs.Prelude.{◌≡◌, ℕ, List, All};
ghost use Rattle.gl_model.specs.TraceSteps.{IsStep, AreClean};
ghost use Rattle.gl_trace.specs.Trace.{IsTrace, IsFirstFault};
ghost use Rattle.gl_trace.specs.TraceLine.{TraceLine, steps_of};

/// A text has one meaning: its lines, or its first fault.
pub fn one_meaning()
    ensures apart { (text : List ℕ) (trace : List TraceLine) (line kind : ℕ) → IsTrace text trace → IsFirstFault text line kind → ⊥ }
    ensures faults { (text : List ℕ) (a b j k : ℕ) → IsFirstFault text a j → IsFirstFault text b k → (a ≡ b) × (j ≡ k) }
    ensures traces { (text : List ℕ) (a b : List TraceLine) → IsTrace text a → IsTrace text b → a ≡ b }
{}

/// Each line of a trace says a step that a trace can have, and none has a fault behind those before it.
pub fn traces_are_clean()
    ensures range { (text : List ℕ) (trace : List TraceLine) → IsTrace text trace → All IsStep (steps_of trace) }
    ensures clean { (text : List ℕ) (trace : List TraceLine) → IsTrace text trace → AreClean (steps_of trace) }
{}
