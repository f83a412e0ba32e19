// Words of a line.
ghost use Rattle.std.specs.Prelude.{◌≡◌, ◌<◌, ◌≤◌, ◌+◌, ◌^◌, drop, IfSome, length, MatchOption, [], ◌∷◌, ℕ, List};
ghost use Rattle.std.specs.List.{position, position_or_len, slice_split};
ghost use Rattle.std.specs.Iterator.{YieldsFirstBy, item_count};
ghost use Rattle.gl_text.specs.Text.{is_blank, words, parts};
ghost use Rattle.gl_text.specs.Spans.{spans_at, spans_from, AreSlices, IsPart, Rise};

use crate::wide::{hash_at, word_at};
use std::marker::Model;

// The place of the first blank.
fn word_end(text: &[u8]) -> Option<usize>
    ensures { result ≡ position is_blank text.now }
{
    text.iter().position(|b| matches!(b, b' ' | b'\t'))
}

// A word at the front of a text, and what follows it.
fn split_word(text: &[u8]) -> (&[u8], &[u8])
    requires some { 0 < position_or_len is_blank text.now }
    requires there { 0 < length text.now }
    ensures { parts text.now ≡ result.0.now ∷ parts result.1.now }
{
    text.split_at(word_end(text).unwrap_or(text.len()))
}

// The first word, and what follows it.
fn first_word(text: &[u8]) -> Option<(&[u8], &[u8])>
    ensures { MatchOption result (parts text.now ≡ []) (λ x. parts text.now ≡ x.0.now ∷ parts x.1.now) }
{
    match word_at(text) {
        Some(start) => Some(split_word(&text[start..])),
        None => None,
    }
}

/// The words of a line.
#[derive(Drop)]
pub struct Words<'a> {
    rest: &'a [u8],
}

// Seen as the words that are left.
impl<'a> Model for Words<'a> {
    ghost use Rattle.std.specs.Prelude.{List, ℕ};
    ghost use Rattle.gl_text.specs.Text.{parts};

    ghost Value = { List (List ℕ) };

    ghost view = { λ s. parts s.rest.now };
}

/// The words of a line, up to the first `#`.
pub fn words_of(line: &[u8]) -> Words<'_>
    ensures { result ≡ words line.now }
{
    match hash_at(line) {
        Some(end) => Words { rest: &line[..end] },
        None => Words { rest: line },
    }
}

impl<'a> Iterator for Words<'a> {
    type Item = &'a [u8];

    ghost next_gives = { YieldsFirstBy (λ word. word.now) (λ s. s) };

    ghost remaining = { item_count (λ s. s) };

    fn next(&mut self) -> Option<&'a [u8]> {
        match first_word(self.rest) {
            Some((word, rest)) => {
                self.rest = rest;
                Some(word)
            }
            None => None,
        }
    }
}

/// Where the words of a line stand.
#[derive(Drop)]
pub(crate) struct Spans<'a> {
    rest: &'a [u8],
    at: usize,
}

// Seen as the spans that are left.
impl<'a> Model for Spans<'a> {
    ghost use Rattle.std.specs.Prelude.{List, ℕ, ◌+◌, ◌<◌, ◌^◌, length};
    ghost use Rattle.std.specs.List.{slice_split};
    ghost use Rattle.gl_text.specs.Text.{is_blank};
    ghost use Rattle.gl_text.specs.Spans.{spans_from};

    ghost Value = { List (ℕ × ℕ) };

    ghost view = { λ s. spans_from s.at (slice_split is_blank s.rest.now) };

    ghost invariant = { λ s. s.at + length s.rest.now < 2 ^ 63 };
}

/// Where the words of a line stand, up to the first `#`, in a text in which the line begins at this place.
pub(crate) fn spans_of(line: &[u8], start: usize) -> Spans<'_>
    requires { start + length line.now < 2 ^ 63 }
    ensures { result ≡ spans_at start line.now }
{
    match hash_at(line) {
        Some(end) => Spans {
            rest: &line[..end],
            at: start,
        },
        None => Spans {
            rest: line,
            at: start,
        },
    }
}

// The length of the word at the front of a text.
fn word_size(text: &[u8]) -> usize
    ensures { result ≡ position_or_len is_blank text.now }
{
    word_end(text).unwrap_or(text.len())
}

// How many blanks stand before the first word, and its length.
fn first_span(text: &[u8]) -> Option<(usize, usize)>
    ensures within { IfSome result (λ x. x.0 + x.1 ≤ length text.now) }
    ensures value { (at : ℕ) → MatchOption result (spans_from at (slice_split is_blank text.now) ≡ [])
        (λ x. spans_from at (slice_split is_blank text.now) ≡ (at + x.0, at + x.0 + x.1) ∷ spans_from (at + x.0 + x.1) (slice_split is_blank (drop (x.0 + x.1) text.now))) }
{
    match word_at(text) {
        Some(start) => Some((start, word_size(&text[start..]))),
        None => None,
    }
}

impl<'a> Iterator for Spans<'a> {
    type Item = (usize, usize);

    ghost next_gives = { YieldsFirstBy (λ span. span) (λ s. s) };

    ghost remaining = { item_count (λ s. s) };

    fn next(&mut self) -> Option<(usize, usize)> {
        match first_span(self.rest) {
            Some((start, len)) => {
                let from = self.at + start;
                self.rest = &self.rest[start + len..];
                self.at = from + len;
                Some((from, from + len))
            }
            None => None,
        }
    }
}

/// The words of a line are the slices of its text at their spans, which rise.
pub fn words_are_slices()
    ensures slices { (whole : List ℕ) (start : ℕ) (line : List ℕ) → IsPart whole start line → AreSlices whole start line }
    ensures rise { (whole : List ℕ) (start : ℕ) (line : List ℕ) → IsPart whole start line → Rise whole start line }
{}
