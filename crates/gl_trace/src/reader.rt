// A whole trace text, line by line.
ghost use Rattle.std.specs.Prelude.{◌≡◌, ◌≤◌, ◌<◌, IfOk, IfErr, IfSome, List, None, Some, Ok};
ghost use Rattle.std.proofs.Props.{props};
ghost use Rattle.gl_text.specs.Text.{words};
ghost use Rattle.gl_model.specs.TraceSteps.{Step, IsStep};
ghost use Rattle.gl_trace.specs.Kept.{IsItemKept};
ghost use Rattle.gl_trace.specs.Tracks.{Tracks, IsWithin};
ghost use Rattle.gl_trace.specs.Trace.{IsTrace, AreLines, line_fault, kind_of};
ghost use Rattle.gl_trace.specs.Phrase.{said, step_with};
ghost use Rattle.gl_trace.specs.Faulty.{FaultsFirst};
ghost use Rattle.gl_trace.specs.declared.limits.TheConstants.{TRACE_LINES};

use crate::kept::Trace;
use crate::limits::{TRACE_BYTES, TRACE_LINES};
use crate::phrase::said_by;
use crate::quick::quick_line;
use crate::standing::Standing;
use gl_model::{Act, Item, StepFault};
use gl_text::kinds::{
    BAD_BYTE, BAD_SET, CANNOT_FORK, JOIN_SELF, MONITOR_NOT_OWNED, MONITOR_OWNED, NOT_RUNNING,
    TOO_LONG, TOO_MANY_LINES,
};
use gl_text::{Line, Lines, TextError, TextFault};
use std::alloc::{AllocError, Global};

// The kind of a fault behind earlier lines.
fn kind(fault: StepFault) -> u8
    ensures { result ≡ kind_of fault }
{
    match fault {
        StepFault::BadSet => BAD_SET,
        StepFault::NotRunning => NOT_RUNNING,
        StepFault::CannotFork => CANNOT_FORK,
        StepFault::JoinSelf => JOIN_SELF,
        StepFault::MonitorOwned => MONITOR_OWNED,
        StepFault::MonitorNotOwned => MONITOR_NOT_OWNED,
    }
}

// What a line says, behind the steps so far: its thread is answered, and its item is written to its place.
fn read_line(line: &Line<'_>, standing: &Standing, item: &mut Item) -> Result<Option<u8>, u8>
    ensures fault { (steps : List Step) → Tracks steps standing.now → IfErr result (λ kind. line_fault steps line.now.number line.now.text ≡ Some kind) }
    ensures clean { (steps : List Step) → Tracks steps standing.now → IfOk result (λ o. line_fault steps line.now.number line.now.text ≡ None) }
    ensures said { IfOk result (λ o. said (words line.now.text) ≡ Ok (step_with item.new o)) }
    ensures few { IfOk result (λ o. line.now.number ≤ TRACE_LINES) }
    ensures range { IfOk result (λ o. IfSome o (λ t. IsStep (t, item.new))) }
    ensures set { IfOk result (λ o. IfSome o (λ t. IsItemKept item.new)) }
{
    if line.bad() {
        return Err(BAD_BYTE);
    }
    if line.number() > TRACE_LINES {
        return Err(TOO_MANY_LINES);
    }
    match said_by(line.words(), item)? {
        None => Ok(None),
        Some(thread) => match standing.fault(thread, item) {
            None => Ok(Some(thread)),
            Some(fault) => Err(kind(fault)),
        },
    }
}

/// Reads a trace text line by line, as far as its first fault.
#[derive(Drop)]
pub struct TraceReader<'a> {
    lines: Lines<'a>,
    standing: Standing,
    ghost depth: { IsWithin lines.given standing } by { Prim.hlevel props },
}

impl<'a> TraceReader<'a> {
    ghost use Rattle.std.specs.Prelude.{◌≡◌, ◌<◌, ◌++◌, ◌∷◌, [], ℕ, List, length, IfOk, IfErr, IfSome, MatchOption};
    ghost use Rattle.gl_trace.specs.Reads.{IsReadTo};
    ghost use Rattle.gl_trace.specs.Trace.{IsTrace, IsFirstFault};
    ghost use Rattle.gl_trace.specs.TraceLine.{TraceLine};
    ghost use Rattle.gl_model.specs.TraceSteps.{IsStep};

    /// A reader before the first line, or the fault of a text that is too long.
    pub fn new(bytes: &'a [u8]) -> Result<TraceReader<'a>, TextFault>
        ensures reads { IfOk result (IsReadTo bytes.now []) }
        ensures fault { IfErr result (λ f. IsFirstFault bytes.now f.line f.kind) }
    {
        if bytes.len() > TRACE_BYTES {
            return Err(TextFault {
                line: 0,
                kind: TOO_LONG,
            });
        }
        Ok(TraceReader {
            lines: Lines::new(bytes),
            standing: Standing::new(),
        })
    }

    // Reads the next line where it is of the usual form and has no fault; else nothing is read, and nothing said of it or of `item`.
    fn quick_next(&mut self, item: &mut Item) -> Option<(u32, u8)>
        ensures line { (text : List ℕ) (made : List TraceLine) → IsReadTo text made self.old → IfSome result (λ x. IsReadTo text (made ++ (x.0, x.1, item.new) ∷ []) self.new) }
        ensures none { result ≡ None → self.new ≡ self.old }
        ensures range { IfSome result (λ x. IsStep (x.1, item.new)) }
        ensures shorter { IfSome result (λ x. length self.new.lines.left < length self.old.lines.left) }
    {
        let (thread, rest) = quick_line(self.lines.rest(), item)?;
        let number = self.lines.given() + 1;
        if number > TRACE_LINES || self.standing.fault(thread, item).is_some() {
            return None;
        }
        self.lines.skip_to(rest);
        self.standing.take(thread, item);
        Some((number, thread))
    }

    // Reads lines until one says something or has a fault, or none is left. It is kept out of the loop over usual lines, whose values then
    // stay in registers.
    #[inline(never)]
    fn full_next(&mut self, item: &mut Item) -> Result<Option<(u32, u8)>, TextFault>
        ensures line { (text : List ℕ) (made : List TraceLine) → IsReadTo text made self.old → IfOk result (λ o. MatchOption o (IsTrace text made) (λ x. IsReadTo text (made ++ (x.0, x.1, item.new) ∷ []) self.new)) }
        ensures fault { (text : List ℕ) (made : List TraceLine) → IsReadTo text made self.old → IfErr result (λ f. IsFirstFault text f.line f.kind) }
        ensures range { IfOk result (λ o. IfSome o (λ x. IsStep (x.1, item.new))) }
        ensures shorter { IfOk result (λ o. IfSome o (λ x. length self.new.lines.left < length self.old.lines.left)) }
    {
        while let Some(line) = self.lines.next_line() {
            let number = line.number();
            match read_line(&line, &self.standing, item) {
                Ok(None) => {}
                Ok(Some(thread)) => {
                    self.standing.take(thread, item);
                    return Ok(Some((number, thread)));
                }
                Err(kind) => return Err(TextFault { line: number, kind }),
            }
        }
        Ok(None)
    }

    /// Reads the next line that says something: answers its number and its thread, and writes what it says to `item`. `None` at the end
    /// of a text without a fault; else its first fault, behind which nothing is to be read. Then nothing is said of `item`.
    pub fn next_line(&mut self, item: &mut Item) -> Result<Option<(u32, u8)>, TextFault>
        ensures line { (text : List ℕ) (made : List TraceLine) → IsReadTo text made self.old → IfOk result (λ o. MatchOption o (IsTrace text made) (λ x. IsReadTo text (made ++ (x.0, x.1, item.new) ∷ []) self.new)) }
        ensures fault { (text : List ℕ) (made : List TraceLine) → IsReadTo text made self.old → IfErr result (λ f. IsFirstFault text f.line f.kind) }
        ensures range { IfOk result (λ o. IfSome o (λ x. IsStep (x.1, item.new))) }
        ensures shorter { IfOk result (λ o. IfSome o (λ x. length self.new.lines.left < length self.old.lines.left)) }
    {
        match self.quick_next(item) {
            Some(read) => Ok(Some(read)),
            None => self.full_next(item),
        }
    }
}

/// What `item` is before a line was read.
pub const NO_ITEM: Item = Item::Act(Act::End);

/// What a trace text says, or its first fault: the least line that has one, and in it the first that is looked for.
pub fn read_trace(alloc: Global, bytes: &[u8]) -> Result<Trace, TextError>
    ensures ok { IfOk result (IsTrace bytes.now) }
    ensures lines { IfOk result AreLines }
    ensures fault { IfErr result (FaultsFirst bytes.now) }
{
    let mut reader = match TraceReader::new(bytes) {
        Ok(reader) => reader,
        Err(fault) => return Err(TextError::Fault(fault)),
    };
    let mut kept = Vec::new(alloc);
    let mut item = NO_ITEM;
    loop {
        match reader.next_line(&mut item) {
            Ok(Some((line, thread))) => kept
                .push((line, thread, item))
                .map_err(|refused| TextError::Memory(AllocError::from(refused)))?,
            Ok(None) => return Ok(Trace { lines: kept }),
            Err(fault) => return Err(TextError::Fault(fault)),
        }
    }
}
