ghost use Rattle.std.specs.Prelude.{◌≡◌, IsTrue, All};
ghost use Rattle.gl_model.specs.Elements.{IsStampInRange};
ghost use Rattle.gl_shortcut.specs.Asking.{AreInRange, HoldsAt};
ghost use Rattle.gl_shortcut.specs.Ordering.{Orders, OrdersOver};
ghost use Rattle.gl_shortcut.specs.Facts.{IsEarly, IsLate};

use crate::sure::Sure;
use gl_model::{Info, Question, Stamp};

/// A function that is asked with no events: whether the Info's access is ordered before the question's, or both are commits.
pub type EarlyFn = fn(&Info, &Question) -> bool;

/// A function that is asked over the events from the Info's position up to the question's point.
pub type LateFn = fn(&Info, &Question, &[Stamp]) -> bool;

/// An early function beside its fact: a yes means order, and it says yes wherever its `Sure` holds.
#[derive(Clone, Copy)]
pub struct EarlyCut {
    pub(crate) ask: EarlyFn,
    pub(crate) sure: Sure,
    ghost fact: { IsEarly (λ i q. EarlyFn.pre ask i q) (λ i q r. EarlyFn.post ask i q r) sure },
}

impl EarlyCut {
    pub(crate) fn new(f: EarlyFn, sure: Sure) -> EarlyCut
        requires { IsEarly (λ i q. EarlyFn.pre f i q) (λ i q r. EarlyFn.post f i q r) sure }
        ensures ask { result.ask ≡ f }
        ensures sure { result.sure ≡ sure }
    {
        EarlyCut { ask: f, sure }
    }

    pub(crate) fn says(&self, info: &Info, q: &Question) -> bool
        requires range { AreInRange info.now q.now }
        ensures is { EarlyFn.post self.now.ask info.entry q.entry result }
        ensures yes { IsTrue result → Orders info.now q.now }
        ensures sure { HoldsAt self.now.sure info.now q.now → IsTrue result }
    {
        (self.ask)(info, q)
    }
}

/// A late function beside its fact: a yes means order.
#[derive(Clone, Copy)]
pub struct LateCut {
    pub(crate) ask: LateFn,
    ghost fact: { IsLate (λ i q w. LateFn.pre ask i q w) (λ i q w r. LateFn.post ask i q w r) },
}

impl LateCut {
    pub(crate) fn new(f: LateFn) -> LateCut
        requires { IsLate (λ i q w. LateFn.pre f i q w) (λ i q w r. LateFn.post f i q w r) }
        ensures { result.ask ≡ f }
    {
        LateCut { ask: f }
    }

    pub(crate) fn says(&self, info: &Info, q: &Question, window: &[Stamp]) -> bool
        requires range { AreInRange info.now q.now }
        requires stamps { All IsStampInRange window.now }
        ensures is { LateFn.post self.now.ask info.entry q.entry window.entry result }
        ensures yes { IsTrue result → OrdersOver info.now q.now window.now }
    {
        (self.ask)(info, q, window)
    }
}
