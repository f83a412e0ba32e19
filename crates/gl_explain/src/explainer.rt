// The lines of a trace, one after another, and the text of why some are races.
ghost use Rattle.std.specs.Prelude.{◌≡◌, ◌<◌, ◌≤◌, ◌+◌, ◌-◌, ◌^◌, ◌∷◌, ◌++◌, [], ℕ, List, length, false, IfOk, OnOk, Some, count_by, slice_get, string_bytes};
ghost use Rattle.gl_clocks.specs.Clocks.{tick};
ghost use Rattle.gl_core.specs.Cells.{at};
ghost use Rattle.gl_core.specs.EpochLaws.{known_next};
ghost use Rattle.gl_core.specs.Follows.{Follows, IsReady};
ghost use Rattle.gl_lines.specs.TraceLaws.{commit_of};
ghost use Rattle.gl_lines.specs.TraceRows.{access_at};
ghost use Rattle.gl_lines.specs.TraceStates.{AreSound};
ghost use Rattle.gl_lines.specs.Traced.{history};
ghost use Rattle.gl_model.specs.Trace.{Line};
ghost use Rattle.gl_model.specs.TraceSteps.{IsLineItem, is_too_wide};
ghost use Rattle.gl_model.specs.declared.limits.TheConstants.{THREADS};
ghost use Rattle.gl_model.specs.declared.row.Judged.TheVariants.{Performed, Raised};
ghost use Rattle.gl_trace.specs.Verdicts.{is_race};
ghost use Rattle.gl_explain.specs.Marks.{Tells, plain_behind};
ghost use Rattle.gl_explain.specs.Races.{IsCulprit};
ghost use Rattle.gl_names.specs.Names.{name_of};
ghost use Rattle.gl_explain.specs.Explained.{Explains};
ghost use Rattle.gl_explain.specs.Written.{IsWritten};
ghost use Rattle.gl_explain.specs.declared.told.Kept.{Kept as AKept};
ghost use Rattle.gl_explain.specs.Told.{line_of, told_of};

use crate::explained::explained;
use crate::page::Page;
use crate::races::tick_of;
use crate::text::{push_ending, push_explanation};
use crate::told::{Explanation, Kept, Told};
use gl_core::Detector;
use gl_model::{Item, Judged, THREADS};
use gl_names::{Names, names_of};
use gl_shortcut::Cuts;
use std::alloc::{AllocError, Global};

// The threads as a length.
const ALL: usize = THREADS as usize;

// How far the thread knows what each thread did, when the item is its next line.
fn known_at(detector: &Detector, thread: u8, item: &Item) -> [u32; ALL]
    requires ready { IsReady detector.now }
    requires thread { thread < THREADS }
    ensures { (lines : List Line) → Follows lines detector.now → is_too_wide item.now ≡ false → (u : ℕ) → at result u ≡ known_next (history lines) thread (commit_of item.now) u }
{
    match item {
        Item::Act(_) => *detector.known(thread),
        Item::Access { .. } => *detector.known(thread),
        Item::Commit { reads, writes } => match (*reads).union(writes) {
            Some(variables) => detector.known_to_commit(thread, &variables),
            None => *detector.known(thread),
        },
    }
}

// How far the thread knows itself.
fn own_at(detector: &Detector, thread: u8) -> u32
    requires { thread < THREADS }
    ensures { (lines : List Line) (l : Line) → Follows lines detector.now → AreSound (lines ++ l ∷ []) → l.thread ≡ thread → result ≡ tick (plain_behind lines thread) + 1 }
{
    tick_of(detector.known(thread), thread)
}

// The mark of the line's access, where the detector was given the line and its thread knew itself so far before it.
fn mark_of(detector: &Detector, told: &Told, own: u32) -> u32
    requires { told.now.thread < THREADS }
    ensures { (lines : List Line) → own ≡ tick (plain_behind lines told.now.thread) + 1 → Follows (lines ++ line_of told.now ∷ []) detector.now → told.now.judged ≡ Performed → result ≡ tick (access_at lines (line_of told.now)) + 1 }
{
    match told.item {
        Item::Act(_) | Item::Access { .. } => own,
        Item::Commit { .. } => tick_of(detector.known(told.thread), told.thread).saturating_sub(1),
    }
}

// Adds the explanation of the line, where it is a race, and gives it back.
fn explain(
    alloc: Global,
    writer: &mut Writer<'_>,
    kept: &[Kept],
    told: &Told,
    known: &[u32; ALL],
) -> Result<Option<Explanation>, AllocError>
    requires few { length kept.now ≤ 2 ^ 32 - 2 }
    requires lines { (i : ℕ) (k : AKept) → slice_get kept.now i ≡ Some k → IsLineItem k.told.item }
    requires race { (var : ℕ) → told.now.judged ≡ Raised var → (i : ℕ) × IsCulprit (told_of kept.now) told.now var i }
    requires tells { Tells kept.now told.now known.now }
    ensures written { IsWritten (name_of writer.old.names) (told_of kept.now) (string_bytes writer.old.text)
        → OnOk result (IsWritten (name_of writer.new.names) (told_of kept.now ++ told.now ∷ []) (string_bytes writer.new.text)) }
    ensures names { writer.new.names ≡ writer.old.names }
    ensures found { IfOk result (Explains (told_of kept.now) told.now) }
{
    match told.judged {
        Judged::Raised { var } => {
            let explanation = explained(alloc, kept, told, var, known)?;
            push_explanation(&mut writer.text, &writer.names, &explanation)?;
            Ok(Some(explanation))
        }
        Judged::NoAccess | Judged::Performed => Ok(None),
    }
}

// How many races there are.
fn races(kept: &[Kept]) -> usize
    ensures { result ≡ count_by (λ k. is_race k.told.judged) kept.now }
{
    kept.iter()
        .filter(|k| matches!(k.told.judged, Judged::Raised { .. }))
        .count()
}

// The text of the explanations so far, and the names in it.
#[derive(Drop)]
pub struct Writer<'a> {
    text: String,
    names: Names<'a>,
}

// The detector that judges the lines, the lines with their marks, and what is written of them.
#[derive(Drop)]
pub struct Explainer<'a> {
    detector: Detector,
    kept: Vec<Kept>,
    writer: Writer<'a>,
}

impl<'a> Explainer<'a> {
    ghost use Rattle.std.specs.Prelude.{◌≡◌, ◌<◌, ◌∷◌, ◌++◌, [], List, length, IfOk, OnOk};
    ghost use Rattle.gl_model.specs.TraceSteps.{IsStep};
    ghost use Rattle.gl_trace.specs.Trace.{AreLines};
    ghost use Rattle.gl_explain.specs.declared.told.Told.{Told as ATold};
    ghost use Rattle.gl_explain.specs.Follows.{Awaits, IsTold, IsToldOn};
    ghost use Rattle.gl_explain.specs.Told.{told_of, trace_of};
    ghost use Rattle.gl_explain.specs.Answers.{ExplainsLines};
    ghost use Rattle.gl_names.specs.Names.{name_of};

    // No line of the input was given yet.
    pub fn new(alloc: Global, input: &'a [u8]) -> Result<Explainer<'a>, AllocError>
        requires { length input.now < u32.MAX }
        ensures told { IfOk result (IsTold []) }
        ensures names { IfOk result (λ x. x.writer.names ≡ input.now) }
    {
        Ok(Explainer {
            detector: Detector::new(alloc)?,
            kept: Vec::new(alloc),
            writer: Writer {
                text: String::new(alloc),
                names: names_of(alloc, input)?,
            },
        })
    }

    // Takes the next line, and gives the explanation where it is a race.
    pub fn take(
        &mut self,
        alloc: Global,
        line: u32,
        thread: u8,
        item: &Item,
        cuts: &Cuts,
    ) -> Result<Option<Explanation>, AllocError>
        requires step { IsStep (thread, item.now) }
        requires awaits { Awaits (line, thread, item.now) self.old }
        ensures told { (done : List ATold) → IsTold done self.old → AreLines (trace_of done ++ (line, thread, item.now) ∷ []) → IfOk result (IsToldOn done (line, thread, item.now) self.new) }
        ensures names { OnOk result (self.new.writer.names ≡ self.old.writer.names) }
    {
        let own = own_at(&self.detector, thread);
        let known = known_at(&self.detector, thread, item);
        let judged = self.detector.step(thread, item, cuts)?;
        let told = Told {
            line,
            thread,
            item: *item,
            judged,
        };
        let explanation = explain(alloc, &mut self.writer, &self.kept, &told, &known)?;
        let mark = mark_of(&self.detector, &told, own);
        self.kept.push(Kept { told, own, mark })?;
        Ok(explanation)
    }

    // How many lines were taken.
    pub fn count(&self) -> usize
        ensures { (done : List ATold) → IsTold done self.now → result ≡ length done }
    {
        self.kept.len()
    }

    // The lines that were taken.
    pub fn lines(self) -> Vec<Kept>
        ensures { (done : List ATold) → IsTold done self.entry → told_of result.items ≡ done }
    {
        self.kept
    }

    // What the lines are answered.
    pub fn page(self) -> Result<Page, AllocError>
        ensures { (done : List ATold) → IsTold done self.entry → IfOk result (λ p. ExplainsLines (name_of self.entry.writer.names) done p.status p.text.items) }
    {
        let races = races(&self.kept);
        let writer = self.writer;
        let mut text = writer.text;
        push_ending(&mut text, races)?;
        Ok(Page {
            status: if races == 0 { 0 } else { 6 },
            text: text.into_bytes(),
        })
    }
}
