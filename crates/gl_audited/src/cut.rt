// Where the text of an audit is cut in two.
ghost use Rattle.std.specs.Prelude.{◌≡◌, ◌+◌, ◌<◌, ◌≤◌, ◌-◌, drop, length, take, false};
ghost use Rattle.std.specs.Str.Lines.{lines};
ghost use Rattle.gl_audited.specs.Cut.{IsCutAt, IsLineEnd, begins_record, first_begins_record};

use gl_text::{Lines, words_of};

// Whether the first of the line's words is `record`.
fn begins_record(line: &[u8]) -> bool
    ensures { result ≡ begins_record line.now }
{
    match words_of(line).next() {
        Some(word) => matches!(word, b"record"),
        None => false,
    }
}

// Whether the first line of the text begins a record.
fn starts_record(text: &[u8]) -> bool
    requires { length text.now < u32.MAX }
    ensures { result ≡ first_begins_record (lines text.now) }
{
    match Lines::new(text).next_line() {
        Some(line) => begins_record(line.text()),
        None => false,
    }
}

// How many bytes the first line takes, its line feed among them.
fn line_len(text: &[u8]) -> usize
    requires { 0 < length text.now }
    ensures { IsLineEnd text.now result }
{
    match text.iter().position(|b| *b == b'\n') {
        Some(end) => end + 1,
        None => text.len(),
    }
}

// What stands in a text before a place, and from there on.
pub(crate) fn parts_at(text: &[u8], at: usize) -> (&[u8], &[u8])
    requires { at ≤ length text.now }
    ensures before { result.0.now ≡ take at text.now }
    ensures after { result.1.now ≡ drop at text.now }
{
    text.split_at(at)
}

/// Where a text is cut: how many bytes its first part has, and how many lines.
#[derive(Clone, Copy)]
pub(crate) struct Cut {
    pub(crate) at: usize,
    pub(crate) lines: u32,
}

// Cuts the text before the first line whose first word is `record`, or else after its last line.
pub(crate) fn cut_text(text: &[u8]) -> Cut
    requires { length text.now < u32.MAX }
    ensures at { IsCutAt text.now result.at }
    ensures lines { result.lines ≡ length (lines (take result.at text.now)) }
    ensures few { result.lines ≤ result.at }
{
    let mut at = 0;
    let mut lines = 0u32;
    while at < text.len() {
        let (_, rest) = parts_at(text, at);
        if starts_record(rest) {
            return Cut { at, lines };
        }
        at += line_len(rest);
        lines += 1;
    }
    Cut { at, lines }
}
