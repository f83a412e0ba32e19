ghost use Rattle.gl_judge.specs.declared.judging.Verdict.TheVariants.{Race};
ghost use Rattle.std.specs.Prelude.{Bool, false, ◌≡◌, ◌↔◌, ℕ, ◌<◌, IsTrue, List, Some, All};
ghost use Rattle.gl_model.specs.declared.event.Stamp.{Stamp as AStamp};
ghost use Rattle.gl_model.specs.declared.limits.TheConstants.{THREADS};
ghost use Rattle.gl_model.specs.Elements.{IsStampInRange};
ghost use Rattle.gl_model.specs.Locksets.{Access};
ghost use Rattle.gl_draws.specs.RowFacts.{Fails, SomeFails, read_of};
ghost use Rattle.gl_model.specs.Entries.{Entry};
ghost use Rattle.gl_model.specs.Machine.{Setting};
ghost use Rattle.gl_draws.specs.Draws.{Draw};
ghost use Rattle.gl_draws.specs.Added.{IsAdded, IsAddedAs};
ghost use Rattle.gl_draws.specs.NextRaces.{IsRacyNext};
ghost use Rattle.gl_model.specs.HappensBefore.{IsRacy};
ghost use Rattle.gl_model.specs.Records.{Lists, Place};
ghost use Rattle.gl_judge.specs.Standing.{KeptStands, InfosStand, StandsFor, AsksFor};
ghost use Rattle.gl_judge.specs.Asked.{IsFrom, IsAbsentOrFrom, IsRowFrom, IsAskedOver};
ghost use Rattle.gl_model.specs.Infos.{InfoFor};
ghost use Rattle.gl_shortcut.specs.Ordering.{OrdersOver};

use crate::asking::says_early;
use crate::window::walk;
use gl_model::{Info, Question, Row, Stamp, THREADS};
use gl_shortcut::{Cuts, passes};

/// What a row's Infos say of a next access.
#[derive(Clone, Copy, Debug, PartialEq, Eq)]
pub enum Verdict {
    /// Each performed access that conflicts with it is ordered before it, or both are commits.
    Ordered,
    /// Some performed access that conflicts with it is not ordered before it.
    Race,
}

fn says_late(info: &Info, q: &Question, window: &[Stamp], cuts: &Cuts) -> bool
    requires thread { q.now.thread < THREADS }
    requires stamps { All IsStampInRange window.now }
    ensures { IsTrue result → OrdersOver info.now q.now window.now }
{
    info.thread < THREADS && cuts.ask_late(info, q, window)
}

fn fails(info: &Info, q: &Question, from: u64, window: &[Stamp], cuts: &Cuts) -> bool
    requires thread { q.now.thread < THREADS }
    requires stamps { All IsStampInRange window.now }
    requires within { IsFrom from window.now info.now }
    ensures { (setting : Setting) (h : List AStamp) (a : Access) (write : Bool) → IsAskedOver setting h from window.now q.now → InfoFor setting h info.now a write → IsTrue result ↔ Fails h info.now q.now.thread q.now.commit }
{
    if says_early(info, q, cuts) {
        return false;
    }
    if passes(&info.set, q) {
        return false;
    }
    let rest = &window[(info.pos - from) as usize..];
    if says_late(info, q, rest, cuts) {
        return false;
    }
    let set = walk(info, rest);
    !passes(&set, q)
}

fn kept_fails(kept: &Option<Info>, q: &Question, from: u64, window: &[Stamp], cuts: &Cuts) -> bool
    requires thread { q.now.thread < THREADS }
    requires stamps { All IsStampInRange window.now }
    requires within { IsAbsentOrFrom from window.now kept.now }
    ensures { (setting : Setting) (h : List AStamp) (write : Bool) → IsAskedOver setting h from window.now q.now → KeptStands setting h kept.now write → IsTrue result ↔ ((i : Info) × (kept.now ≡ Some i) × Fails h i q.now.thread q.now.commit) }
{
    match kept {
        None => false,
        Some(info) => fails(info, q, from, window, cuts),
    }
}

fn some_fails(
    reads: &[Option<Info>],
    q: &Question,
    from: u64,
    window: &[Stamp],
    cuts: &Cuts,
) -> bool
    requires thread { q.now.thread < THREADS }
    requires stamps { All IsStampInRange window.now }
    requires within { (t : ℕ) → IsAbsentOrFrom from window.now (read_of reads.now t) }
    ensures { (setting : Setting) (h : List AStamp) → IsAskedOver setting h from window.now q.now → ((t : ℕ) → KeptStands setting h (read_of reads.now t) false) → IsTrue result ↔ ((t : ℕ) × (i : Info) × (read_of reads.now t ≡ Some i) × Fails h i q.now.thread q.now.commit) }
{
    for read in reads {
        if kept_fails(read, q, from, window, cuts) {
            return true;
        }
    }
    false
}

fn some_conflict_fails(row: &Row, q: &Question, from: u64, window: &[Stamp], cuts: &Cuts) -> bool
    requires thread { q.now.thread < THREADS }
    requires stamps { All IsStampInRange window.now }
    requires within { IsRowFrom from window.now row.now }
    ensures { (setting : Setting) (h : List AStamp) → IsAskedOver setting h from window.now q.now → InfosStand setting h row.now → IsTrue result ↔ SomeFails h row.now q.now }
{
    if kept_fails(&row.last_write, q, from, window, cuts) {
        return true;
    }
    q.write && some_fails(&row.reads, q, from, window, cuts)
}

/// Whether a next access of the row's variable completes a race: Race exactly where the lockset of some Info that conflicts
/// with it does not let it pass. Over a row that stands that is exactly where the access is racy, and in any record to which its entry is
/// added exactly where that entry is, by the race law. The window is the list of events from a position on; no Info's position is outside
/// of it. Each Info is asked of the early cuts, then of the late ones over the events from its position on, and then walked: the cuts
/// change no answer. This is said of each list in which the row's Infos stand for accesses and the question is of a next access.
pub fn judge(row: &Row, q: &Question, from: u64, window: &[Stamp], cuts: &Cuts) -> Verdict
    requires thread { q.now.thread < THREADS }
    requires stamps { All IsStampInRange window.now }
    requires within { IsRowFrom from window.now row.now }
    ensures fails { (setting : Setting) (h : List AStamp) → IsAskedOver setting h from window.now q.now → InfosStand setting h row.now → (result ≡ Race) ↔ SomeFails h row.now q.now }
    ensures racy { (setting : Setting) (h : List AStamp) (x : ℕ) (ds : List Draw) (f : Entry) → IsAskedOver setting h from window.now q.now → StandsFor setting h x ds row.now q.now.thread → AsksFor q.now f x → (result ≡ Race) ↔ IsRacyNext h x ds q.now.thread q.now.commit f }
    ensures record { (setting : Setting) (h later : List AStamp) (x m : ℕ) (before after : ℕ → List Draw) (R : Lists) (d : Place) (f : Entry) → IsAskedOver setting h from window.now q.now → StandsFor setting h x (before x) row.now q.now.thread → AsksFor q.now f x → d.thread ≡ q.now.thread → IsAdded h later R before after d f x m → IsAddedAs setting h later R d q.now.commit → (result ≡ Race) ↔ IsRacy R d x }
{
    if some_conflict_fails(row, q, from, window, cuts) {
        Verdict::Race
    } else {
        Verdict::Ordered
    }
}
