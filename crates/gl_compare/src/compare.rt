// The detector and the plain judge, side by side.
ghost use Rattle.std.specs.Prelude.{◌≡◌, All, IfOk, IsTrue, List};
ghost use Rattle.gl_compare.specs.Counted.{AreJudged, counted};
ghost use Rattle.gl_model.specs.declared.row.Judged.{Judged as AJudged};
ghost use Rattle.gl_model.specs.TraceSteps.{IsStep, AreClean};

use gl_core::Detector;
use gl_model::{Item, Judged};
use gl_reference::SlowJudge;
use gl_shortcut::Cuts;
use std::alloc::{AllocError, Global};

/// A line of a trace: its thread, and what it says.
pub type Line = (u8, Item);

/// What was compared.
#[derive(Clone, Copy)]
pub struct Tally {
    pub traces: u64,
    pub lines: u64,
    /// The lines that were raised.
    pub raised: u64,
}

/// What was compared, and the first trace of which two of the three say different things.
#[derive(Drop)]
pub struct Outcome {
    pub tally: Tally,
    /// What the rows said.
    pub rows: Tally,
    pub differing: Option<Vec<Line>>,
}

impl Tally {
    ghost use Rattle.std.specs.Prelude.{◌≡◌};
    ghost use Rattle.gl_compare.specs.Counted.{one_line};

    pub fn new() -> Tally {
        Tally {
            traces: 0,
            lines: 0,
            raised: 0,
        }
    }

    /// What was counted there is counted here too.
    pub fn add(&mut self, other: &Tally) {
        self.traces = self.traces.saturating_add(other.traces);
        self.lines = self.lines.saturating_add(other.lines);
        self.raised = self.raised.saturating_add(other.raised);
    }

    /// One line more, of which this is said.
    pub fn count(&mut self, judged: Judged)
        ensures { self.new ≡ one_line self.old judged }
    {
        self.lines = self.lines.saturating_add(1);
        if matches!(judged, Judged::Raised { .. }) {
            self.raised = self.raised.saturating_add(1);
        }
    }
}

/// Whether both say the same of each line of a trace, up to the first of which they do not: over a clean trace they do, what they say is
/// what the race law says, and all of it is counted.
pub fn agree(alloc: Global, trace: &[Line], tally: &mut Tally) -> Result<bool, AllocError>
    requires { All IsStep trace.now }
    ensures same { AreClean trace.now → IfOk result IsTrue }
    ensures counted { AreClean trace.now → IfOk result (λ same. (judged : List AJudged) × AreJudged trace.now judged × (tally.new ≡ counted tally.old judged)) }
{
    let cuts = Cuts::none();
    let mut detector = Detector::new(alloc)?;
    let mut judge = SlowJudge::new(alloc)?;
    tally.traces = tally.traces.saturating_add(1);
    for (thread, item) in trace {
        let judged = detector.step(*thread, item, &cuts)?;
        if judge.step(alloc, *thread, item)? != judged {
            return Ok(false);
        }
        tally.count(judged);
    }
    Ok(true)
}
