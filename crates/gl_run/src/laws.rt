// Laws of the answers: each is settled.
ghost use Rattle.gl_run.specs.Laws.{AuditsAreApart, AuditsAreExact, AuditsAreOne, ChecksAreApart, ChecksAreOne, ListingsAreApart, ListingsAreOne, LoadsAreLawful, LoadsAreTold, RepliesAreOne, RepliesAreTold, RunsAreApart, RunsAreLawful, RunsAreTold};

/// A text has one answer of `check`, and is not both accepted and refused.
pub fn checks_are_settled()
    ensures one { ChecksAreOne }
    ensures apart { ChecksAreApart }
{
    gl_trace::one_meaning();
    gl_trace::traces_are_clean();
    gl_lines::verdicts_of_traces();
}

/// A text has one answer of `list`. A run's answer is told by the closed table that is kept, whose record is lawful. No text is both
/// accepted and refused.
pub fn programs_are_settled()
    ensures listings { ListingsAreOne }
    ensures listings_apart { ListingsAreApart }
    ensures runs { RunsAreTold }
    ensures runs_apart { RunsAreApart }
    ensures lawful { RunsAreLawful }
{
    gl_asm::one_meaning();
}

/// A load's answer is told by the closed table that is kept, whose record is lawful for the bank of its size.
pub fn loads_are_settled()
    ensures told { LoadsAreTold }
    ensures lawful { LoadsAreLawful }
{}

/// A text has one answer of `audit`, and is not both accepted and refused. Its status is that of no fault exactly where the record that it
/// says is lawful.
pub fn audits_are_settled()
    ensures one { AuditsAreOne }
    ensures apart { AuditsAreApart }
    ensures exact { AuditsAreExact }
{
    gl_audited::one_meaning();
    gl_audit::one_finding();
}

/// Words that run no program have one answer for each input: one status, one text, and one record that is kept. Whatever the words
/// are, the status and the text are told by what is kept.
pub fn answers_are_settled()
    ensures one { RepliesAreOne }
    ensures told { RepliesAreTold }
{
    checks_are_settled();
    programs_are_settled();
    loads_are_settled();
    audits_are_settled();
}
