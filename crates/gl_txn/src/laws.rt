// What the clauses on how an attempt ends rule out.
ghost use Rattle.gl_txn.specs.Laws.{RacyIsNotDone, ClearIsNotRaised, UnlookedIsNotChanged};

/// The cause of an end is judged over some list of events: where thread 0 has begun and there is no other event, an attempt of another
/// thread on one variable that thread 0 wrote is not Done, and one on an untouched variable is not Raised; and an attempt that looked at
/// nothing is not Changed.
pub fn causes_tell_the_ends_apart()
    ensures done { RacyIsNotDone }
    ensures raised { ClearIsNotRaised }
    ensures changed { UnlookedIsNotChanged }
{}
