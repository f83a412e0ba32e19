// The limits, with their numbers written out.
ghost use Rattle.std.specs.Prelude.{◌≡◌};
ghost use Rattle.gl_model.specs.declared.limits.TheConstants.{CLASSES, FUNCTIONS, HELD, INPUTS, MONITORS, THREADS, TX_VARIABLES, VARIABLES, VOLATILES};

/// Each limit is the number that is stated for it; ids go from 0 to one less.
pub fn limits_are_stated()
    ensures threads { THREADS ≡ 16 }
    ensures monitors { MONITORS ≡ 256 }
    ensures volatiles { VOLATILES ≡ 256 }
    ensures functions { FUNCTIONS ≡ 64 }
    ensures classes { CLASSES ≡ 64 }
    ensures variables { VARIABLES ≡ 1024 }
    ensures tx_variables { TX_VARIABLES ≡ 16 }
    ensures inputs { INPUTS ≡ 65536 }
    ensures held { HELD ≡ 4 }
{}
