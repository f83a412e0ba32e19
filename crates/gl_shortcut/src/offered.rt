ghost use Rattle.std.specs.Prelude.{◌≡◌, ◌↔◌, ◌<◌, true, false, IsTrue, All, filter};
ghost use Rattle.gl_model.specs.declared.event.Element.{Element as AnElement};
ghost use Rattle.gl_model.specs.declared.limits.TheConstants.{THREADS};
ghost use Rattle.gl_model.specs.Elements.{IsStampInRange};
ghost use Rattle.gl_model.specs.Lockset.{Has};
ghost use Rattle.gl_model.specs.Locksets.{After, AfterAll, IsOrderedOrExcepted};
ghost use Rattle.gl_shortcut.specs.Asking.{AreBothCommits, ShareMonitor, is_of_two};
ghost use Rattle.gl_shortcut.specs.Ordering.{Orders, OrdersOver};

use crate::testing::passes;
use gl_model::{Info, Lockset, Question, Stamp};

/// Early: whether one thread made the access and asks.
pub fn same_thread(info: &Info, q: &Question) -> bool
    ensures exact { IsTrue result ↔ (info.now.thread ≡ q.now.thread) }
    ensures order { IsTrue result → Orders info.now q.now }
{
    info.thread == q.thread
}

/// Early: whether both are commits.
pub fn both_commits(info: &Info, q: &Question) -> bool
    ensures exact { IsTrue result ↔ AreBothCommits info.now q.now }
    ensures order { IsTrue result → Orders info.now q.now }
{
    info.commit && q.commit.is_some()
}

/// Early: whether some monitor is kept as owned at the access and at the question. Where two threads owned it so, the one has
/// left it and the other has entered it in between.
pub fn shared_monitor(info: &Info, q: &Question) -> bool
    ensures exact { IsTrue result ↔ ShareMonitor info.now q.now }
    ensures order { IsTrue result → Orders info.now q.now }
{
    info.held.shares(&q.held)
}

// Takes the event where one of the two threads made it.
fn step_of_two(set: &mut Lockset, stamp: &Stamp, info: &Info, q: &Question)
    requires { IsStampInRange stamp.now }
    ensures taken { is_of_two info.now.thread q.now.thread stamp.now ≡ true → (y : AnElement) → Has set.new y ↔ After (Has set.old) stamp.now y }
    ensures passed { is_of_two info.now.thread q.now.thread stamp.now ≡ false → set.new ≡ set.old }
{
    if stamp.thread == info.thread || stamp.thread == q.thread {
        set.step(stamp);
    }
}

// The Info's lockset after those of the events alone that the two threads made.
fn walk_two(info: &Info, q: &Question, window: &[Stamp]) -> Lockset
    requires stamps { All IsStampInRange window.now }
    ensures { (y : AnElement) → Has result y ↔ AfterAll (Has info.now.set) (filter (is_of_two info.now.thread q.now.thread) window.now) y }
{
    let mut set = info.set;
    for stamp in window {
        step_of_two(&mut set, stamp, info, q);
    }
    set
}

/// Late: whether the Info passes its test after those of the events alone that its thread or the question's made.
pub fn two_threads(info: &Info, q: &Question, window: &[Stamp]) -> bool
    requires thread { q.now.thread < THREADS }
    requires stamps { All IsStampInRange window.now }
    ensures exact { IsTrue result ↔ IsOrderedOrExcepted (AfterAll (Has info.now.set) (filter (is_of_two info.now.thread q.now.thread) window.now)) q.now.thread q.now.commit }
    ensures order { IsTrue result → OrdersOver info.now q.now window.now }
{
    passes(&walk_two(info, q, window), q)
}
