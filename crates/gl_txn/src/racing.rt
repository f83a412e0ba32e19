// Whether the attempt's commit would complete a race.
ghost use Rattle.std.specs.Prelude.{◌≡◌, ◌↔◌, ◌≤◌, true, MatchOption};
ghost use Rattle.gl_judge.specs.declared.judging.Verdict.TheVariants.{Race};
ghost use Rattle.gl_rule.specs.Objects.{capacity};
ghost use Rattle.gl_txn.specs.Racing.{asked_on, MayJudge, KnowsOn, AreClear, IsFirstRace};

use crate::taken::TakenRow;
use gl_judge::Verdict;
use gl_model::{Pairs, Question};
use gl_rows::{Window, check};
use gl_shortcut::Cuts;
use gl_table::{Pass, Shared};

fn is_race(verdict: Verdict) -> bool
    ensures { (result ≡ true) ↔ (verdict ≡ Race) }
{
    match verdict {
        Verdict::Ordered => false,
        Verdict::Race => true,
    }
}

// What is asked of the row of a variable.
fn question(base: &Question, writes: &Pairs, var: u16) -> Question
    ensures { result ≡ asked_on base.now writes.now var }
{
    Question {
        thread: base.thread,
        write: writes.of(var).is_some(),
        commit: base.commit,
        held: base.held,
    }
}

// The variable of the first of these rows on which the commit completes a race.
pub(crate) fn first_race(
    shared: &Shared,
    pass: &mut Pass,
    rows: &[TakenRow],
    base: &Question,
    writes: &Pairs,
    cuts: &Cuts,
    window: &mut Window,
) -> Option<u16>
    requires table { pass.old.own.table ≡ shared.now.id }
    requires may { MayJudge pass.old rows.now base.now }
    requires window { capacity shared.now.key ≤ window.old }
    ensures pass { KnowsOn pass.old pass.new }
    ensures judged { MatchOption result (AreClear pass.new base.now writes.now rows.now) (IsFirstRace pass.new base.now writes.now rows.now) }
    ensures window { window.new ≡ window.old }
{
    for taken in rows {
        let q = question(base, writes, taken.var);
        if is_race(check(shared, pass, taken.row.row(), &q, cuts, window)) {
            return Some(taken.var);
        }
    }
    None
}
