//! The rule of the table: each kind of step keeps it, tables begin with it, and what it says of a table at the end.
#![tactic(auto)]

ghost use Rattle.gl_rule.specs.Agreeing.{KnownEventsAgree, KnownSetsAgree, KnownTestsAgree, OwnPlainStands, OwnCommitStands};
ghost use Rattle.gl_rule.specs.Laws.{ClosedIsLawful, ClosedIsTrimmed, ClosedIsBounded, TrimsBySegments};
ghost use Rattle.gl_rule.specs.Levels.{LevelsTell, MonitorsTell, QuestionsTell};
ghost use Rattle.gl_rule.specs.Safe.{TablesAreSafe, OverwritesUnnamed};
ghost use Rattle.gl_rule.specs.Steps.{TakesTurn, LeavesTurn, WritesBack, LoadsTail, LoadsHold, LoadsFloor, LoadsStop, LoadsCell, LoadsEvent, StoresWord, SetsStop, RaisesHold, RaisesLow, PublishesAct, PublishesCommit, MarksPlain, MarksOpen, RecordsAdded, Begins, EntersSeat, SplitsSeat, JoinsSeats};

/// Taking an object's turn, leaving it, and leaving it with a value that was owed.
pub fn turns_keep_the_rule()
    ensures takes { TakesTurn }
    ensures leaves { LeavesTurn }
    ensures writes_back { WritesBack }
{}

/// Loading the tail, a hold, the stop word, or a word of an event's cell.
pub fn loads_keep_the_rule()
    ensures tail { LoadsTail }
    ensures hold { LoadsHold }
    ensures floor { LoadsFloor }
    ensures stop { LoadsStop }
    ensures cell { LoadsCell }
    ensures event { LoadsEvent }
{}

/// Storing a word of a cell or the stop word, and raising a hold or the first segment.
pub fn stores_keep_the_rule()
    ensures word { StoresWord }
    ensures stop { SetsStop }
    ensures hold { RaisesHold }
    ensures low { RaisesLow }
{}

/// Publishing an act or a commit.
pub fn events_keep_the_rule()
    ensures act { PublishesAct }
    ensures commit { PublishesCommit }
{}

/// Drawing a number for a plain access, for a look, or for the end of an attempt; and recording what a pass adds
/// without a step.
pub fn accesses_keep_the_rule()
    ensures plain { MarksPlain }
    ensures open { MarksOpen }
    ensures added { RecordsAdded }
{}

/// A table begins with the rule, and seats come, are split and are joined again under it.
pub fn seats_keep_the_rule()
    ensures begins { Begins }
    ensures enters { EntersSeat }
    ensures splits { SplitsSeat }
    ensures joins { JoinsSeats }
{}

/// What a pass is asked of each list of events that it cannot tell from the table's, it can know: these lists agree on the
/// events that it knows, so on the sets of Infos and on the tests over them; and an Info that it gives for an access of its
/// own stands for that over each of them.
pub fn fitting_lists_agree()
    ensures events { KnownEventsAgree }
    ensures sets { KnownSetsAgree }
    ensures tests { KnownTestsAgree }
    ensures plain { OwnPlainStands }
    ensures commit { OwnCommitStands }
{}

/// A thread's own entries tell how often it owns each monitor behind each list of events that has them, and so which are the
/// least that it owns; and a question with these, where it runs by its entries, is of a next access.
pub fn own_entries_tell_the_monitors()
    ensures levels { LevelsTell }
    ensures monitors { MonitorsTell }
    ensures questions { QuestionsTell }
{}

/// No cell is given again while somebody may still walk from its event: the table is safe, and the event whose cell the
/// next one takes lies in a segment below that of each position that is named.
pub fn tables_are_safe()
    ensures safe { TablesAreSafe }
    ensures overwrites { OverwritesUnnamed }
{}

/// Where one pass has the lists of all threads, each of them done, and holds nothing, the record of these lists is
/// lawful, its Trims are those of the ring, and its positions, numbers and low marks are bounded.
pub fn closed_tables_are_lawful()
    ensures lawful { ClosedIsLawful }
    ensures trims { ClosedIsTrimmed }
    ensures bounded { ClosedIsBounded }
    ensures segments { TrimsBySegments }
{}
