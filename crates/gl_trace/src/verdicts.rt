// The text of the verdicts.
ghost use Rattle.std.specs.Prelude.{◌≡◌, ◌++◌, IfOk, OnOk, string_bytes, count_by};
ghost use Rattle.gl_trace.specs.Judging.{AreJudged};
ghost use Rattle.std.specs.Fmt.{decimal};
ghost use Rattle.gl_trace.specs.Traced.{IsGrown};
ghost use Rattle.gl_trace.specs.Verdicts.{is_race, verdict_line, races_line, verdict_text};

use crate::kept::Trace;
use gl_model::Judged;
use itoa::Buffer;
use std::alloc::{AllocError, Global};

// Adds a number and a word behind it.
fn push_line(out: &mut String, line: u32, word: &str) -> Result<(), AllocError>
    ensures added { OnOk result (string_bytes out.new ≡ string_bytes out.old ++ (decimal line ++ word.now)) }
    ensures kept { IsGrown (string_bytes out.old) (string_bytes out.new) }
{
    out.push_str(Buffer::new().format(line))?;
    out.push_str(word)
}

/// Adds the line of a verdict; a line that is no access has none. After want of memory what stood there stands there still, perhaps with
/// a part of the line.
pub fn push_verdict(out: &mut String, line: u32, judged: Judged) -> Result<(), AllocError>
    ensures kept { IsGrown (string_bytes out.old) (string_bytes out.new) }
    ensures added { OnOk result (string_bytes out.new ≡ string_bytes out.old ++ verdict_line line judged) }
{
    match judged {
        Judged::NoAccess => Ok(()),
        Judged::Performed => push_line(out, line, " ok\n"),
        Judged::Raised { .. } => push_line(out, line, " race\n"),
    }
}

/// Adds the last line: the number of races. After want of memory what stood there stands there still, perhaps with a part of the line.
pub fn push_races(out: &mut String, races: usize) -> Result<(), AllocError>
    ensures kept { IsGrown (string_bytes out.old) (string_bytes out.new) }
    ensures added { OnOk result (string_bytes out.new ≡ string_bytes out.old ++ races_line races) }
{
    out.push_str("races ")?;
    out.push_str(Buffer::new().format(races))?;
    out.push_str("\n")
}

// How many races there are.
fn races(judged: &[Judged]) -> usize
    ensures { result ≡ count_by is_race judged.now }
{
    judged
        .iter()
        .filter(|said| matches!(said, Judged::Raised { .. }))
        .count()
}

/// For each access its line's number and `ok` or `race`, and then the number of races.
pub fn verdict_text(alloc: Global, trace: &Trace, judged: &[Judged]) -> Result<Vec<u8>, AllocError>
    requires { AreJudged trace.now judged.now }
    ensures { IfOk result (λ text. text.items ≡ verdict_text trace.now judged.now) }
{
    let mut out = String::new(alloc);
    let lines = trace.lines();
    for i in 0..lines.len() {
        push_verdict(&mut out, lines[i].0, judged[i])?;
    }
    let races = races(judged);
    push_races(&mut out, races)?;
    Ok(out.into_bytes())
}
