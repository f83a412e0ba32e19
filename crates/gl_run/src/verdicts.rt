// What is said of the lines of a trace, one after another.
ghost use Rattle.std.specs.Prelude.{◌≡◌, ◌+◌, ◌*◌, ◌<◌, ◌∷◌, ◌++◌, [], List, IfOk, IfSome, OnOk, count_by, false};
ghost use Rattle.gl_model.specs.Trace.{Line};
ghost use Rattle.gl_model.specs.TraceSteps.{IsLineItem, is_too_wide};
ghost use Rattle.gl_model.specs.declared.limits.TheConstants.{THREADS};
ghost use Rattle.gl_trace.specs.Judging.{Suits};
ghost use Rattle.gl_trace.specs.Traced.{IsUpTo};
ghost use Rattle.gl_trace.specs.Verdicts.{is_race};
ghost use Rattle.gl_trace.specs.declared.limits.TheConstants.{TRACE_LINES};
ghost use Rattle.gl_run.specs.Check.{KeepsRecord};
ghost use Rattle.gl_run.specs.Recording.{IsRecorded, keep_of};

use crate::keep::Keep;
use crate::kept::Kept;
use crate::page::Page;
use crate::status::{ALL_WELL, RACES};
use gl_core::Detector;
use gl_model::{Item, Judged};
use gl_shortcut::Cuts;
use gl_trace::{TRACE_LINES, Tracer, push_races, push_verdict};
use std::alloc::{AllocError, Global};

// The record before the first line, where one is to be kept.
fn new_tracer(alloc: Global, keep: Keep) -> Result<Option<Tracer>, AllocError>
    ensures keep { IfOk result (λ tracer. keep_of tracer ≡ keep) }
    ensures recorded { IfOk result (IsRecorded []) }
{
    match keep {
        Keep::Record => Ok(Some(Tracer::new(alloc)?)),
        Keep::Nothing => Ok(None),
    }
}

// The record, where one is kept, gets a line with what was said of it.
fn record_line(
    alloc: Global,
    tracer: &mut Option<Tracer>,
    thread: u8,
    item: &Item,
    judged: Judged,
) -> Result<(), AllocError>
    requires thread { thread < THREADS }
    requires item { IsLineItem item.now }
    requires few { is_too_wide item.now ≡ false }
    requires suits { Suits item.now judged }
    requires room { IfSome tracer.old (IsUpTo (2 * TRACE_LINES)) }
    ensures keep { OnOk result (keep_of tracer.new ≡ keep_of tracer.old) }
    ensures recorded { (lines : List Line) → IsRecorded lines tracer.old → OnOk result (IsRecorded (lines ++ record { thread = thread; item = item.now; judged = judged } ∷ []) tracer.new) }
{
    match tracer {
        Some(tracer) => tracer.item(alloc, thread, item, judged),
        None => Ok(()),
    }
}

// The record after the last line, where one is kept.
fn kept_of(tracer: Option<Tracer>) -> Result<Option<Kept>, AllocError>
    requires room { IfSome tracer (IsUpTo (2 * TRACE_LINES + 1)) }
    ensures { (lines : List Line) → IsRecorded lines tracer → IfOk result (KeepsRecord (keep_of tracer) lines) }
{
    match tracer {
        Some(tracer) => {
            let made = tracer.record()?;
            made.keeps();
            Ok(Some(Kept::Trace(made)))
        }
        None => Ok(None),
    }
}

// How many races there are, with what was said of one line more.
fn with_one(races: u32, judged: Judged) -> u32
    requires { races < TRACE_LINES }
    ensures { result ≡ races + count_by is_race (judged ∷ []) }
{
    match judged {
        Judged::Raised { .. } => races + 1,
        Judged::Performed | Judged::NoAccess => races,
    }
}

// Room for so many bytes of verdicts is taken at first; a page of it is only touched when it is written.
const TEXT_ROOM: usize = 131_072;

// The detector that judges the lines, the text of its verdicts so far, how many of them are races, and the record so far,
// where one is kept.
#[derive(Drop)]
pub struct Verdicts {
    detector: Detector,
    text: String,
    races: u32,
    tracer: Option<Tracer>,
}

impl Verdicts {
    ghost use Rattle.std.specs.Prelude.{◌≡◌, ◌∷◌, ◌++◌, [], List, IfOk, OnOk};
    ghost use Rattle.gl_model.specs.TraceSteps.{IsStep};
    ghost use Rattle.gl_trace.specs.Trace.{AreLines};
    ghost use Rattle.gl_run.specs.Check.{AnswersLines, Said, lines_said};
    ghost use Rattle.gl_run.specs.Recording.{keep_of};
    ghost use Rattle.gl_run.specs.Said.{IsSaid, Awaits, Ends, IsSaidOn};

    // Nothing was said yet.
    pub fn new(alloc: Global, keep: Keep) -> Result<Verdicts, AllocError>
        ensures keep { IfOk result (λ v. keep_of v.tracer ≡ keep) }
        ensures said { IfOk result (IsSaid []) }
    {
        Ok(Verdicts {
            detector: Detector::new(alloc)?,
            text: String::with_capacity(alloc, TEXT_ROOM)?,
            races: 0,
            tracer: new_tracer(alloc, keep)?,
        })
    }

    // Judges the next line, as the race law says.
    pub fn take(
        &mut self,
        alloc: Global,
        line: u32,
        thread: u8,
        item: &Item,
        cuts: &Cuts,
    ) -> Result<(), AllocError>
        requires step { IsStep (thread, item.now) }
        requires awaits { Awaits (line, thread, item.now) self.old }
        ensures keep { OnOk result (keep_of self.new.tracer ≡ keep_of self.old.tracer) }
        ensures said { (done : List Said) → IsSaid done self.old → AreLines (lines_said done ++ (line, thread, item.now) ∷ []) → OnOk result (IsSaidOn done (line, thread, item.now) self.new) }
    {
        let judged = self.detector.step(thread, item, cuts)?;
        push_verdict(&mut self.text, line, judged)?;
        self.races = with_one(self.races, judged);
        record_line(alloc, &mut self.tracer, thread, item, judged)
    }

    // What the lines are answered.
    pub fn page(mut self) -> Result<Page, AllocError>
        requires { Ends self }
        ensures { (done : List Said) → IsSaid done self → AreLines (lines_said done) → IfOk result (λ p. AnswersLines (keep_of self.tracer) (lines_said done) p.status p.text.items p.kept) }
    {
        push_races(&mut self.text, self.races as usize)?;
        Ok(Page {
            status: if self.races == 0 { ALL_WELL } else { RACES },
            text: self.text.into_bytes(),
            kept: kept_of(self.tracer)?,
        })
    }
}
