ghost use Rattle.std.specs.Prelude.{◌≡◌, ◌↔◌, ◌⊎◌, ◌+◌, true, false, IsTrue, IsErr, IfOk, IfErr, All, Some, None};
ghost use Rattle.gl_model.specs.Elements.{IsStampInRange};
ghost use Rattle.gl_shortcut.specs.Asking.{AreInRange, HoldsAt};
ghost use Rattle.gl_shortcut.specs.Ordering.{Orders, OrdersOver};
ghost use Rattle.gl_shortcut.specs.Facts.{IsEarly, IsLate};
ghost use Rattle.gl_shortcut.specs.Keeping.{IsOneOf, count_of};
ghost use Rattle.gl_shortcut.specs.declared.cuts.ShortCut.TheVariants.{Early, Late};

use crate::kept::{EarlyCut, EarlyFn, LateCut, LateFn};
use crate::sure::Sure;
use gl_model::{Info, Question, Stamp};

/// A function that may answer a question of order before a walk is made. Its yes is right over every list; its no says nothing.
#[derive(Clone, Copy)]
pub enum ShortCut {
    Early(EarlyCut),
    Late(LateCut),
}

impl ShortCut {
    /// A function that is asked with no events.
    pub fn early(f: EarlyFn, sure: Sure) -> ShortCut
        requires { IsEarly (λ i q. EarlyFn.pre f i q) (λ i q r. EarlyFn.post f i q r) sure }
        ensures { (c : _) × (result ≡ Early c) × (c.ask ≡ f) × (c.sure ≡ sure) }
    {
        ShortCut::Early(EarlyCut::new(f, sure))
    }

    /// A function that is asked over the events from the Info's position on.
    pub fn late(f: LateFn) -> ShortCut
        requires { IsLate (λ i q w. LateFn.pre f i q w) (λ i q w r. LateFn.post f i q w r) }
        ensures { (c : _) × (result ≡ Late c) × (c.ask ≡ f) }
    {
        ShortCut::Late(LateCut::new(f))
    }
}

/// At most four short cuts. With more or fewer of them the same verdicts come.
#[derive(Clone, Copy)]
pub struct Cuts {
    first: Option<ShortCut>,
    second: Option<ShortCut>,
    third: Option<ShortCut>,
    fourth: Option<ShortCut>,
}

fn says_early(kept: &Option<ShortCut>, info: &Info, q: &Question) -> bool
    requires range { AreInRange info.now q.now }
    ensures yes { IsTrue result → Orders info.now q.now }
    ensures asked { IsTrue result → (c : _) × (kept.now ≡ Some (Early c)) × EarlyFn.post c.ask info.entry q.entry true }
    ensures asks { result ≡ false → (c : _) → kept.now ≡ Some (Early c) → EarlyFn.post c.ask info.entry q.entry false }
    ensures sure { (c : _) → kept.now ≡ Some (Early c) → HoldsAt c.sure info.now q.now → IsTrue result }
{
    match kept {
        Some(ShortCut::Early(cut)) => cut.says(info, q),
        Some(ShortCut::Late(_)) | None => false,
    }
}

fn says_late(kept: &Option<ShortCut>, info: &Info, q: &Question, window: &[Stamp]) -> bool
    requires range { AreInRange info.now q.now }
    requires stamps { All IsStampInRange window.now }
    ensures yes { IsTrue result → OrdersOver info.now q.now window.now }
    ensures asked { IsTrue result → (c : _) × (kept.now ≡ Some (Late c)) × LateFn.post c.ask info.entry q.entry window.entry true }
    ensures asks { result ≡ false → (c : _) → kept.now ≡ Some (Late c) → LateFn.post c.ask info.entry q.entry window.entry false }
{
    match kept {
        Some(ShortCut::Late(cut)) => cut.says(info, q, window),
        Some(ShortCut::Early(_)) | None => false,
    }
}

impl Cuts {
    ghost use Rattle.gl_shortcut.specs.Surely.{SayYesSurely};

    /// No short cut: each judgement walks.
    pub fn none() -> Cuts
        ensures none { (x : _) → IsOneOf x result.first result.second result.third result.fourth → ⊥ }
        ensures count { count_of result.first result.second result.third result.fourth ≡ 0 }
    {
        Cuts {
            first: None,
            second: None,
            third: None,
            fourth: None,
        }
    }

    /// With one more. The error hands the cuts back: they are four.
    pub fn with(self, cut: ShortCut) -> Result<Cuts, Cuts>
        ensures full { IsErr result ↔ (count_of self.first self.second self.third self.fourth ≡ 4) }
        ensures back { IfErr result (λ cuts. cuts ≡ self) }
        ensures kept { IfOk result (λ cuts. (x : _) → IsOneOf x cuts.first cuts.second cuts.third cuts.fourth ↔ ((x ≡ cut) ⊎ IsOneOf x self.first self.second self.third self.fourth)) }
        ensures count { IfOk result (λ cuts. count_of cuts.first cuts.second cuts.third cuts.fourth ≡ count_of self.first self.second self.third self.fourth + 1) }
    {
        match (self.first, self.second, self.third, self.fourth) {
            (None, _, _, _) => Ok(Cuts {
                first: Some(cut),
                ..self
            }),
            (_, None, _, _) => Ok(Cuts {
                second: Some(cut),
                ..self
            }),
            (_, _, None, _) => Ok(Cuts {
                third: Some(cut),
                ..self
            }),
            (_, _, _, None) => Ok(Cuts {
                fourth: Some(cut),
                ..self
            }),
            (Some(_), Some(_), Some(_), Some(_)) => Err(self),
        }
    }

    /// Asks the early functions, one after another, until one says yes.
    pub fn ask_early(&self, info: &Info, q: &Question) -> bool
        requires range { AreInRange info.now q.now }
        ensures yes { IsTrue result → Orders info.now q.now }
        ensures asked { IsTrue result → (c : _) × IsOneOf (Early c) self.now.first self.now.second self.now.third self.now.fourth × EarlyFn.post c.ask info.entry q.entry true }
        ensures asks { result ≡ false → (c : _) → IsOneOf (Early c) self.now.first self.now.second self.now.third self.now.fourth → EarlyFn.post c.ask info.entry q.entry false }
        ensures sure { SayYesSurely self.now info.now q.now → IsTrue result }
    {
        if says_early(&self.first, info, q) {
            return true;
        }
        if says_early(&self.second, info, q) {
            return true;
        }
        if says_early(&self.third, info, q) {
            return true;
        }
        says_early(&self.fourth, info, q)
    }

    /// Asks the late functions, one after another, until one says yes. The window is the list of events from the Info's position on.
    pub fn ask_late(&self, info: &Info, q: &Question, window: &[Stamp]) -> bool
        requires range { AreInRange info.now q.now }
        requires stamps { All IsStampInRange window.now }
        ensures yes { IsTrue result → OrdersOver info.now q.now window.now }
        ensures asked { IsTrue result → (c : _) × IsOneOf (Late c) self.now.first self.now.second self.now.third self.now.fourth × LateFn.post c.ask info.entry q.entry window.entry true }
        ensures asks { result ≡ false → (c : _) → IsOneOf (Late c) self.now.first self.now.second self.now.third self.now.fourth → LateFn.post c.ask info.entry q.entry window.entry false }
    {
        if says_late(&self.first, info, q, window) {
            return true;
        }
        if says_late(&self.second, info, q, window) {
            return true;
        }
        if says_late(&self.third, info, q, window) {
            return true;
        }
        says_late(&self.fourth, info, q, window)
    }
}
