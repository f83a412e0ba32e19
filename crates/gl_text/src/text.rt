// Lines of a text.
ghost use Rattle.std.specs.Prelude.{◌≡◌, ◌+◌, ◌-◌, ◌<◌, ℕ, List, take, drop, length, MatchOption, IfSome, [], ◌∷◌, slice_get, Some, None, true, false};
ghost use Rattle.std.specs.List.{position, list_any};
ghost use Rattle.std.specs.Str.Lines.{lines, strip_carriage_return};
ghost use Rattle.std.specs.Iterator.{YieldsFirstBy, item_count};
ghost use Rattle.gl_text.specs.Text.{is_line_feed, is_unprintable, is_bad, words};
ghost use Rattle.gl_text.specs.Numbered.{AreLeftOf};
ghost use Rattle.gl_text.specs.Spans.{spans_at, IsPart};

use crate::parts::{Spans, Words, spans_of, words_of};
use crate::wide::unprintable_at;
use std::marker::Model;

// The place of the first line feed.
fn line_end(text: &[u8]) -> Option<usize>
    ensures { result ≡ position is_line_feed text.now }
{
    text.iter().position(|b| *b == b'\n')
}

// A line without the one carriage return at its end.
fn without_return(line: &[u8]) -> &[u8]
    ensures value { result.now ≡ strip_carriage_return line.now }
    ensures front { take (length result.now) line.now ≡ result.now }
{
    match line {
        [front @ .., b'\r'] => front,
        _ => line,
    }
}

// The first line of a text where it ends with a line feed and each of its bytes is printable, and what follows it.
fn printable_line(text: &[u8]) -> Option<(&[u8], &[u8])>
    ensures lines { IfSome result (λ x. lines text.now ≡ x.0.now ∷ lines x.1.now) }
    ensures shorter { IfSome result (λ x. length x.1.now < length text.now) }
    ensures good { IfSome result (λ x. is_bad x.0.now ≡ false) }
    ensures front { IfSome result (λ x. take (length x.0.now) text.now ≡ x.0.now) }
    ensures rest { IfSome result (λ x. drop (length text.now - length x.1.now) text.now ≡ x.1.now) }
{
    let end = unprintable_at(text)?;
    if text[end] != b'\n' {
        return None;
    }
    Some((&text[..end], &text[end + 1..]))
}

// The first line of a text, whatever it has, and what follows it.
fn any_line(text: &[u8]) -> (&[u8], &[u8])
    requires { 0 < length text.now }
    ensures lines { lines text.now ≡ result.0.now ∷ lines result.1.now }
    ensures shorter { length result.1.now < length text.now }
    ensures front { take (length result.0.now) text.now ≡ result.0.now }
    ensures rest { drop (length text.now - length result.1.now) text.now ≡ result.1.now }
{
    match line_end(text) {
        Some(end) => (without_return(&text[..end]), &text[end + 1..]),
        None => (text, &[]),
    }
}

// The first line of a text, whether it is known to have no bad byte, and what follows it.
fn first_line(text: &[u8]) -> (&[u8], bool, &[u8])
    requires { 0 < length text.now }
    ensures lines { lines text.now ≡ result.0.now ∷ lines result.2.now }
    ensures shorter { length result.2.now < length text.now }
    ensures good { result.1 ≡ true → is_bad result.0.now ≡ false }
    ensures front { take (length result.0.now) text.now ≡ result.0.now }
    ensures rest { drop (length text.now - length result.2.now) text.now ≡ result.2.now }
{
    if let Some((line, rest)) = printable_line(text) {
        return (line, true, rest);
    }
    let (line, rest) = any_line(text);
    (line, false, rest)
}

/// The lines of a text, in order, those without words too.
#[derive(Drop)]
pub struct Lines<'a> {
    rest: &'a [u8],
    at: usize,
    given: u32,
}

// Seen as the number of lines that were given, where the next one begins, the bytes that are left, and their lines.
impl<'a> Model for Lines<'a> {
    ghost use Rattle.std.specs.Prelude.{◌+◌, ◌<◌, ◌^◌, ◌-◌, length};
    ghost use Rattle.std.specs.Str.Lines.{lines};
    ghost use Rattle.gl_text.specs.Numbered.{LinesLeft};

    ghost Value = { LinesLeft };

    ghost view = { λ s. record { given = s.given; at = s.at; rest = s.rest.now; left = lines s.rest.now } };

    ghost invariant = { λ s. (s.given + length s.rest.now < 2 ^ 32 - 1) × (s.at + length s.rest.now < 2 ^ 32 - 1) };
}

impl<'a> Lines<'a> {
    /// The lines of a text, which has to be shorter than 2^32 - 1 bytes.
    pub fn new(text: &'a [u8]) -> Self
        requires { length text.now < u32.MAX }
        ensures given { result.given ≡ 0 }
        ensures left { result.left ≡ lines text.now }
        ensures place { AreLeftOf text.now result }
    {
        Lines {
            rest: text,
            at: 0,
            given: 0,
        }
    }

    /// The bytes that are left.
    pub fn rest(&self) -> &'a [u8]
        ensures bytes { result.now ≡ self.now.rest }
        ensures lines { lines result.now ≡ self.now.left }
    {
        self.rest
    }

    /// How many lines were given so far.
    pub fn given(&self) -> u32
        ensures value { result ≡ self.now.given }
        ensures few { result < u32.MAX }
    {
        self.given
    }

    /// Counts a line that was read from the bytes that are left, and goes on behind it.
    pub fn skip_to(&mut self, rest: &'a [u8])
        requires { length rest.now < length self.old.rest }
        ensures given { self.new.given ≡ self.old.given + 1 }
        ensures left { self.new.left ≡ lines rest.now }
        ensures place { (whole : List ℕ) → AreLeftOf whole self.old → drop (length self.old.rest - length rest.now) self.old.rest ≡ rest.now → AreLeftOf whole self.new }
    {
        self.at += self.rest.len() - rest.len();
        self.rest = rest;
        self.given += 1;
    }

    /// The next line with its number and its place, or `None` where no line is left.
    pub fn next_line(&mut self) -> Option<Line<'a>>
        ensures line { MatchOption result (self.old.left ≡ []) (λ line. self.old.left ≡ line.text ∷ self.new.left) }
        ensures number { MatchOption result (self.new ≡ self.old) (λ line. (line.number ≡ self.old.given + 1) × (self.new.given ≡ line.number)) }
        ensures start { IfSome result (λ line. line.start ≡ self.old.at) }
        ensures part { (whole : List ℕ) → AreLeftOf whole self.old → IfSome result (λ line. IsPart whole line.start line.text) }
        ensures place { (whole : List ℕ) → AreLeftOf whole self.old → AreLeftOf whole self.new }
    {
        if self.rest.is_empty() {
            return None;
        }
        let (text, good, rest) = first_line(self.rest);
        let start = self.at;
        self.at += self.rest.len() - rest.len();
        self.rest = rest;
        self.given += 1;
        Some(Line {
            number: self.given,
            start,
            text,
            good,
        })
    }
}

impl<'a> Iterator for Lines<'a> {
    type Item = &'a [u8];

    ghost next_gives = { YieldsFirstBy (λ line. line.now) (λ s. s.left) };

    ghost remaining = { item_count (λ s. s.left) };

    fn next(&mut self) -> Option<&'a [u8]> {
        match self.next_line() {
            Some(line) => Some(line.text),
            None => None,
        }
    }
}

/// A line of a text, its number, counted from 1, and where it begins in the text.
#[derive(Drop)]
pub struct Line<'a> {
    number: u32,
    start: usize,
    text: &'a [u8],
    // Whether it is known that the line has no bad byte.
    good: bool,
}

// Seen as its number, its place and its bytes.
impl<'a> Model for Line<'a> {
    ghost use Rattle.std.specs.Prelude.{◌≡◌, ◌+◌, ◌-◌, ◌<◌, ◌^◌, length, true, false};
    ghost use Rattle.gl_text.specs.Numbered.{NumberedLine};
    ghost use Rattle.gl_text.specs.Text.{is_bad};

    ghost Value = { NumberedLine };

    ghost view = { λ s. record { number = s.number; start = s.start; text = s.text.now } };

    ghost invariant = { λ s. (s.good ≡ true → is_bad s.text.now ≡ false) × (s.start + length s.text.now < 2 ^ 32 - 1) };
}

impl<'a> Line<'a> {
    /// The number of the line in its text, from 1 on.
    pub fn number(&self) -> u32
        ensures { result ≡ self.now.number }
    {
        self.number
    }

    /// The bytes of the line.
    pub fn text(&self) -> &'a [u8]
        ensures { result.now ≡ self.now.text }
    {
        self.text
    }

    /// Whether the line has a byte that no line may have.
    pub fn bad(&self) -> bool
        ensures { result ≡ is_bad self.now.text }
    {
        !self.good && is_bad(self.text)
    }

    /// The words of the line, in order.
    pub fn words(&self) -> Words<'a>
        ensures { result ≡ words self.now.text }
    {
        words_of(self.text)
    }

    fn spans(&self) -> Spans<'a>
        ensures { result ≡ spans_at self.now.start self.now.text }
    {
        spans_of(self.text, self.start)
    }

    /// The word of this index, from 0 on.
    pub fn word(&self, i: usize) -> Option<&'a [u8]>
        ensures { MatchOption result (slice_get (words self.now.text) i ≡ None) (λ word. slice_get (words self.now.text) i ≡ Some word.now) }
    {
        self.words().nth(i)
    }

    /// Where the word of this index begins in the text, and where it has ended.
    pub fn span(&self, i: usize) -> Option<(usize, usize)>
        ensures { result ≡ slice_get (spans_at self.now.start self.now.text) i }
    {
        self.spans().nth(i)
    }
}

// Whether a line has a byte that is no printable one, as a tab.
fn has_unprintable(line: &[u8]) -> bool
    ensures { result ≡ list_any is_unprintable line.now }
{
    line.iter().any(|b| !matches!(b, 32..=126))
}

// The same as `is_bad`, with more to ask of each byte.
fn has_bad(line: &[u8]) -> bool
    ensures { result ≡ is_bad line.now }
{
    line.iter().any(|b| !matches!(b, b'\t' | 32..=126))
}

/// Whether a line has a byte that no line may have.
pub fn is_bad(line: &[u8]) -> bool
    ensures { result ≡ is_bad line.now }
{
    has_unprintable(line) && has_bad(line)
}
