// All three judges, side by side.
ghost use Rattle.std.specs.Prelude.{◌≡◌, All, IfOk, IsTrue, List};
ghost use Rattle.gl_compare.specs.Counted.{AreJudged, counted};
ghost use Rattle.gl_model.specs.declared.row.Judged.{Judged as AJudged};
ghost use Rattle.gl_model.specs.TraceSteps.{IsStep, AreClean};

use crate::compare::{Line, Tally, agree};
use crate::row_judge::RowJudge;
use gl_core::Detector;
use gl_shortcut::Cuts;
use std::alloc::{AllocError, Global};

/// Whether the rows say the same as the detector of each line of a trace, up to the first of which they do not: over a clean trace they
/// do, what they say is what the race law says, and all of it is counted.
pub fn rows_agree(alloc: Global, trace: &[Line], tally: &mut Tally) -> Result<bool, AllocError>
    requires { All IsStep trace.now }
    ensures same { AreClean trace.now → IfOk result IsTrue }
    ensures counted { AreClean trace.now → IfOk result (λ same. (judged : List AJudged) × AreJudged trace.now judged × (tally.new ≡ counted tally.old judged)) }
{
    let cuts = Cuts::none();
    let mut detector = Detector::new(alloc)?;
    let mut rows = RowJudge::new(alloc)?;
    tally.traces = tally.traces.saturating_add(1);
    for (thread, item) in trace {
        let judged = rows.step(*thread, item)?;
        if detector.step(*thread, item, &cuts)? != judged {
            return Ok(false);
        }
        tally.count(judged);
    }
    Ok(true)
}

/// Whether all three say the same of a trace: over a clean one they do, and what they say is what the race law says.
pub fn all_agree(
    alloc: Global,
    trace: &[Line],
    tally: &mut Tally,
    rows: &mut Tally,
) -> Result<bool, AllocError>
    requires { All IsStep trace.now }
    ensures same { AreClean trace.now → IfOk result IsTrue }
    ensures counted { AreClean trace.now → IfOk result (λ same. (judged : List AJudged) × AreJudged trace.now judged × (tally.new ≡ counted tally.old judged)) }
    ensures rows { AreClean trace.now → IfOk result (λ same. (judged : List AJudged) × AreJudged trace.now judged × (rows.new ≡ counted rows.old judged)) }
{
    Ok(agree(alloc, trace, tally)? && rows_agree(alloc, trace, rows)?)
}
