ghost use Rattle.gl_acts.specs.ActLaws.{NoneLivesOn, OneActFailsFirst, RunsDoNotFail, StatesAreSettled};

/// The states that a record's events go through are settled by the record.
pub fn states_are_settled()
    ensures { StatesAreSettled }
{}

/// What `act_fault` answers of a place is one answer: there is one first place at most.
pub fn one_act_fails_first()
    ensures { OneActFailsFirst }
{}

/// A record that is a run of the machine has no place where it fails to be one.
pub fn runs_do_not_fail()
    ensures { RunsDoNotFail }
{}

/// In a well-formed record no thread is live after the last event, so that the first place is always that of an event.
pub fn none_lives_on()
    ensures { NoneLivesOn }
{}
