ghost use Rattle.gl_audit.specs.Findings.{ClausesAreApart, FirstPlacesAreOne, LawfulBySeven, OneFinding};

use gl_acts::{one_act_fails_first, runs_do_not_fail};
use gl_flat::{records_are_legal_where_words_hold, the_first_wrong_word_is_one};
use gl_form::form_is_exact;
use gl_listing::faults_are_exact;

/// A record of a run of the program is lawful exactly where it keeps to the seven clauses.
pub fn lawful_is_seven_clauses()
    ensures { LawfulBySeven }
{}

/// Of any record there is one right finding: where the clauses before it hold, no clause both holds and fails, and none fails first at
/// two places. The laws that it calls say so of the clauses.
pub fn one_finding()
    ensures apart { ClausesAreApart }
    ensures once { FirstPlacesAreOne }
    ensures finding { OneFinding }
{
    form_is_exact();
    faults_are_exact();
    runs_do_not_fail();
    one_act_fails_first();
    records_are_legal_where_words_hold();
    the_first_wrong_word_is_one();
}
