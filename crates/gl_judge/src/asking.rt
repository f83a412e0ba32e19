ghost use Rattle.std.specs.Prelude.{◌≡◌, ◌↔◌, ℕ, ◌<◌, false, IsTrue, Some, List};
ghost use Rattle.gl_model.specs.declared.event.Stamp.{Stamp};
ghost use Rattle.gl_model.specs.declared.limits.TheConstants.{THREADS};
ghost use Rattle.gl_model.specs.Entries.{Entry};
ghost use Rattle.gl_model.specs.Machine.{Setting};
ghost use Rattle.gl_draws.specs.Draws.{Draw};
ghost use Rattle.gl_draws.specs.NextRaces.{IsRacyNext};
ghost use Rattle.gl_draws.specs.RowFacts.{SomeFails, read_of};
ghost use Rattle.gl_shortcut.specs.Ordering.{Orders, IsOfNext};
ghost use Rattle.gl_shortcut.specs.Surely.{SayYesSurely};
ghost use Rattle.gl_judge.specs.Conflicting.{Keeps, Conflicts};
ghost use Rattle.gl_judge.specs.Standing.{InfosStand, StandsFor, AsksFor};

use gl_model::{Info, Question, Row, THREADS};
use gl_shortcut::Cuts;

// What the early cuts say of an Info of a thread that there is.
pub(crate) fn says_early(info: &Info, q: &Question, cuts: &Cuts) -> bool
    requires thread { q.now.thread < THREADS }
    ensures yes { IsTrue result → Orders info.now q.now }
    ensures sure { info.now.thread < THREADS → SayYesSurely cuts.now info.now q.now → IsTrue result }
{
    info.thread < THREADS && cuts.ask_early(info, q)
}

fn conflicts(info: &Info, q: &Question) -> bool
    ensures { IsTrue result ↔ Conflicts info.now q.now }
{
    (info.write || q.write) && (!info.commit || q.commit.is_none())
}

fn is_clear(kept: &Option<Info>, q: &Question, cuts: &Cuts) -> bool
    requires thread { q.now.thread < THREADS }
    ensures yes { IsTrue result → (i : Info) → kept.now ≡ Some i → Conflicts i q.now → Orders i q.now }
    ensures sure { ((i : Info) → kept.now ≡ Some i → Conflicts i q.now → (i.thread < THREADS) × SayYesSurely cuts.now i q.now) → IsTrue result }
{
    match kept {
        None => true,
        Some(info) => !conflicts(info, q) || says_early(info, q, cuts),
    }
}

fn are_clear(reads: &[Option<Info>], q: &Question, cuts: &Cuts) -> bool
    requires thread { q.now.thread < THREADS }
    ensures yes { IsTrue result → (t : ℕ) (i : Info) → read_of reads.now t ≡ Some i → Conflicts i q.now → Orders i q.now }
    ensures sure { ((t : ℕ) (i : Info) → read_of reads.now t ≡ Some i → Conflicts i q.now → (i.thread < THREADS) × SayYesSurely cuts.now i q.now) → IsTrue result }
{
    for read in reads {
        if !is_clear(read, q, cuts) {
            return false;
        }
    }
    true
}

/// Whether the early cuts alone show that a next access of the row's variable completes no race, with no event looked at. A yes is
/// right over each list in which the row's Infos stand for accesses and the question is of a next access. It is said for sure
/// wherever some early cut is sure of each Info that conflicts with the question. A no says nothing.
pub fn early(row: &Row, q: &Question, cuts: &Cuts) -> bool
    requires thread { q.now.thread < THREADS }
    ensures right { IsTrue result → (setting : Setting) (h : List Stamp) → IsOfNext setting h q.now → InfosStand setting h row.now → SomeFails h row.now q.now → ⊥ }
    ensures not_racy { IsTrue result → (setting : Setting) (h : List Stamp) (x : ℕ) (ds : List Draw) (f : Entry) → IsOfNext setting h q.now → StandsFor setting h x ds row.now q.now.thread → AsksFor q.now f x → IsRacyNext h x ds q.now.thread q.now.commit f → ⊥ }
    ensures sure { ((i : Info) → Keeps row.now i → Conflicts i q.now → (i.thread < THREADS) × SayYesSurely cuts.now i q.now) → IsTrue result }
{
    is_clear(&row.last_write, q, cuts) && are_clear(&row.reads, q, cuts)
}
