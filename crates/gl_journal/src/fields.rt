// The words of a line, each in its place.
ghost use Rattle.std.specs.Prelude.{◌≡◌, ◌≤◌, ◌<◌, ◌==◌, length, IfOk};
ghost use Rattle.gl_text.specs.Text.{words};
ghost use Rattle.gl_journal.specs.Fields.{natural_in, value_in, told, choice_in, none_of};

use crate::limits::{LEAST_VALUE, MOST_VALUE};
use gl_text::kinds::BAD_NUMBER;
use gl_text::{Line, Words, natural, number};

/// A number from 0 to `most`.
pub fn natural_in(most: u64, word: &[u8]) -> Result<u64, u8>
    ensures value { result ≡ natural_in most word.now }
    ensures bound { IfOk result (λ n. n ≤ most) }
{
    match natural(word, most) {
        Some(n) => Ok(n),
        None => Err(BAD_NUMBER),
    }
}

/// Any value.
pub fn value_in(word: &[u8]) -> Result<i64, u8>
    ensures { result ≡ value_in word.now }
{
    number(word, LEAST_VALUE, MOST_VALUE).ok_or(BAD_NUMBER)
}

/// A word that has to stand where it stands; else the fault is of this kind.
pub fn told(kind: u8, expected: &[u8], word: &[u8]) -> Result<(), u8>
    ensures { result ≡ told kind expected.now word.now }
{
    if word == expected { Ok(()) } else { Err(kind) }
}

/// One of two words: whether it is the second.
pub fn choice_in(first: &[u8], second: &[u8], word: &[u8]) -> Result<bool, u8>
    ensures { result ≡ choice_in first.now second.now word.now }
{
    if word == first {
        Ok(false)
    } else if word == second {
        Ok(true)
    } else {
        Err(BAD_NUMBER)
    }
}

/// No word is left; else the fault is of this kind.
pub fn none_of(kind: u8, mut words: Words<'_>) -> Result<(), u8>
    ensures { result ≡ none_of kind words.entry }
{
    match words.next() {
        None => Ok(()),
        Some(_) => Err(kind),
    }
}

/// Whether the line has so many words.
pub fn has_words(line: &Line<'_>, count: usize) -> bool
    requires { 0 < count }
    ensures { result ≡ (length (words line.now.text) == count) }
{
    line.word(count - 1).is_some() && line.word(count).is_none()
}
