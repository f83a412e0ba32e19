//! Laws of traces.
#![tactic(auto)]

ghost use Rattle.gl_lines.specs.TraceRecords.{RecordRaces, RecordIsWhole};
ghost use Rattle.gl_lines.specs.TraceRows.{RowsStay, RowsFollow};
ghost use Rattle.gl_lines.specs.TraceLaws.{TraceIsAllowed, RunsAsSaid, TraceIsTied, VerdictsHold, LastIsRacy, NextIsAmong, RacesAreVerdicts, LastIsSettled, VerdictsGrow};

/// What the lines of a sound trace leave: events that the machine allows, a record and draws that belong to them.
pub fn traces_belong_together()
    ensures allowed { TraceIsAllowed }
    ensures runs { RunsAsSaid }
    ensures tied { TraceIsTied }
{}

/// The verdicts of a trace: what right verdicts say of the draws, and how a next line is
/// judged rightly by what is racy on its variables, or by their rows; there is one such verdict.
pub fn verdicts_of_traces()
    ensures hold { VerdictsHold }
    ensures racy { LastIsRacy }
    ensures among { NextIsAmong }
    ensures races { RacesAreVerdicts }
    ensures settled { LastIsSettled }
    ensures grow { VerdictsGrow }
{}

/// The rows of a trace at a line: a row that is not noted stands, and so does one in which the line's access was noted.
pub fn rows_of_traces()
    ensures stay { RowsStay }
    ensures follow { RowsFollow }
{}

/// The record of a trace: where its verdicts are right it obeys the law of races; where the trace is sound it is well
/// formed, its numbers are each once, and the machine makes its events.
pub fn records_of_traces()
    ensures races { RecordRaces }
    ensures whole { RecordIsWhole }
{}
