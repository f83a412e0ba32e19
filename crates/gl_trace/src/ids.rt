// Numbers of a line, and the lists of variables of a commit.
ghost use Rattle.std.specs.Prelude.{◌≡◌, ◌<◌, ◌≤◌, IfOk, ◌∷◌, nat_le, true, false, Some, None, List, ℕ};
ghost use Rattle.std.specs.List.{position, list_any, slice_split};
ghost use Rattle.std.specs.Iterator.{YieldsFirstBy, item_count};
ghost use Rattle.gl_trace.specs.Ids.{operand_of, set_of, list_words, is_comma, is_set, rises};
ghost use Rattle.gl_trace.specs.Kept.{parts_left, with_last, IsKept};
ghost use Rattle.gl_model.specs.declared.limits.TheConstants.{VARIABLES};

use gl_model::{VARIABLES, VarSet};
use gl_text::kinds::BAD_NUMBER;
use gl_text::natural;
use std::marker::Model;

/// A number from 0 to `most`.
pub fn operand(word: &[u8], most: u16) -> Result<u16, u8>
    ensures value { result ≡ operand_of most word.now }
    ensures bound { IfOk result (λ n. n ≤ most) }
{
    match natural(word, u64::from(most)) {
        Some(n) => Ok(n as u16),
        None => Err(BAD_NUMBER),
    }
}

// The place of the first comma.
fn comma(text: &[u8]) -> Option<usize>
    ensures { result ≡ position is_comma text.now }
{
    text.iter().position(|b| *b == b',')
}

// The parts between the commas of a text that are left, none once the last was given.
#[derive(Drop)]
struct Parts<'a> {
    rest: Option<&'a [u8]>,
}

impl<'a> Model for Parts<'a> {
    ghost use Rattle.std.specs.Prelude.{List, ℕ};
    ghost use Rattle.gl_trace.specs.Kept.{parts_left};

    ghost Value = { List (List ℕ) };

    ghost view = { λ s. parts_left s.rest };
}

// The words of a list of variables.
fn list_parts(word: &[u8]) -> Parts<'_>
    ensures { result ≡ list_words word.now }
{
    match word {
        b"-" => Parts { rest: None },
        _ => Parts { rest: Some(word) },
    }
}

// The first part of a text, and what follows its comma, if it has one.
fn first_part(text: &[u8]) -> (&[u8], Option<&[u8]>)
    ensures { slice_split is_comma text.now ≡ result.0.now ∷ parts_left result.1 }
{
    match comma(text) {
        Some(end) => (&text[..end], Some(&text[end + 1..])),
        None => (text, None),
    }
}

impl<'a> Iterator for Parts<'a> {
    type Item = &'a [u8];

    ghost next_gives = { YieldsFirstBy (λ part. part.now) (λ s. s) };

    ghost remaining = { item_count (λ s. s) };

    fn next(&mut self) -> Option<&'a [u8]> {
        match self.rest {
            Some(text) => {
                let (part, rest) = first_part(text);
                self.rest = rest;
                Some(part)
            }
            None => None,
        }
    }
}

// Whether one of the ids, which rise, is at or above this one: the last is.
fn reaches(ids: &[u16], id: u16) -> bool
    requires { rises ids.now ≡ true }
    ensures { result ≡ list_any (λ x. nat_le id x) ids.now }
{
    let len = ids.len();
    len > 0 && id <= ids[len - 1]
}

// Puts one id behind the others, if they still are a set then.
pub(crate) fn put_last(ids: &mut VarSet, id: u16) -> bool
    requires id { id < VARIABLES }
    requires set { is_set ids.old ≡ true }
    ensures put { result ≡ true → Some ids.new ≡ with_last (Some ids.old) id }
    ensures refused { result ≡ false → None ≡ with_last (Some ids.old) id }
{
    if reaches(ids.ids(), id) {
        return false;
    }
    match ids.insert(id) {
        Ok(()) => true,
        Err(_) => false,
    }
}

// Puts one id behind the others of a list that may no longer be a set.
fn put_more(kept: &mut Option<VarSet>, id: u16)
    requires id { id < VARIABLES }
    requires set { IsKept kept.old }
    ensures value { kept.new ≡ with_last kept.old id }
    ensures set { IsKept kept.new }
{
    if let Some(ids) = kept {
        if !put_last(ids, id) {
            *kept = None;
        }
    }
}

/// The variables of a list: a set, or none where the list does not rise strictly or has too many.
pub fn ids(word: &[u8]) -> Result<Option<VarSet>, u8>
    ensures value { result ≡ set_of word.now }
    ensures set { IfOk result IsKept }
{
    let mut kept = Some(VarSet::empty());
    let mut parts = list_parts(word);
    while let Some(part) = parts.next() {
        put_more(&mut kept, operand(part, VARIABLES - 1)?);
    }
    Ok(kept)
}
