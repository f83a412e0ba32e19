// The lists of a transaction.
ghost use Rattle.std.specs.Prelude.{◌≡◌, ◌<◌, ◌==◌, ◌∷◌, [], ℕ, IfOk, IfErr, Ok, Err, List, map, true, OnOk, ◌++◌, nat_lt};
ghost use Rattle.std.specs.List.{position, list_all, slice_split, AllByRecursion};
ghost use Rattle.std.specs.Iterator.{YieldsFirstBy, item_count};
ghost use Rattle.gl_model.specs.declared.limits.TheConstants.{VARIABLES};
ghost use Rattle.gl_text.specs.declared.kinds.TheConstants.{BAD_NUMBER};
ghost use Rattle.gl_journal.specs.Fields.{none_of};
ghost use Rattle.gl_journal.specs.Parts.{is_byte, pieces_left, list_pieces, part_in, list_in, rises, is_set, look_of, pair_of, number_of, look_in, pair_in, number_in};
ghost use Rattle.gl_journal.specs.Refused.{Refused};

use crate::fields::{natural_in, value_in};
use crate::limits::MOST_STAMP;
use crate::refusal::Refusal;
use gl_model::{Look, Looks, Number, Numbers, Pair, Pairs, TX_VARIABLES, VARIABLES};
use gl_text::kinds::BAD_NUMBER;
use std::alloc::{AllocError, Global};
use std::marker::Model;

/// What stands between the parts of a list.
pub const COMMA: u8 = b',';
/// What stands between the numbers of a part.
pub const COLON: u8 = b':';

/// Which list a part is of.
#[derive(Clone, Copy, Debug, PartialEq, Eq)]
pub enum PartForm {
    Look,
    Pair,
    Number,
}

/// A part of a list; what parts of its list do not have is 0.
#[derive(Clone, Copy, Debug, PartialEq, Eq)]
pub struct Part {
    pub var: u16,
    pub value: i64,
    pub nth: u64,
}

// The place of the first such byte.
fn place_of(separator: u8, text: &[u8]) -> Option<usize>
    ensures { result ≡ position (is_byte separator) text.now }
{
    text.iter().position(|b| *b == separator)
}

// The pieces of a text between such bytes that are left, none once the last was given.
#[derive(Drop)]
struct Pieces<'a> {
    separator: u8,
    rest: Option<&'a [u8]>,
}

impl<'a> Model for Pieces<'a> {
    ghost use Rattle.std.specs.Prelude.{List, ℕ};
    ghost use Rattle.gl_journal.specs.Parts.{pieces_left};

    ghost Value = { List (List ℕ) };

    ghost view = { λ s. pieces_left s.separator s.rest };
}

// The pieces of a text between such bytes.
fn pieces_of(separator: u8, text: &[u8]) -> Pieces<'_>
    ensures { result ≡ slice_split (is_byte separator) text.now }
{
    Pieces {
        separator,
        rest: Some(text),
    }
}

// The parts of a list.
fn list_pieces(word: &[u8]) -> Pieces<'_>
    ensures { result ≡ list_pieces word.now }
{
    match word {
        b"-" => Pieces {
            separator: COMMA,
            rest: None,
        },
        _ => Pieces {
            separator: COMMA,
            rest: Some(word),
        },
    }
}

// The first piece of a text, and what follows its separator, if it has one.
fn first_piece(separator: u8, text: &[u8]) -> (&[u8], Option<&[u8]>)
    ensures { slice_split (is_byte separator) text.now ≡ result.0.now ∷ pieces_left separator result.1 }
{
    match place_of(separator, text) {
        Some(end) => (&text[..end], Some(&text[end + 1..])),
        None => (text, None),
    }
}

impl<'a> Iterator for Pieces<'a> {
    type Item = &'a [u8];

    ghost next_gives = { YieldsFirstBy (λ piece. piece.now) (λ s. s) };

    ghost remaining = { item_count (λ s. s) };

    fn next(&mut self) -> Option<&'a [u8]> {
        match self.rest {
            Some(text) => {
                let (piece, rest) = first_piece(self.separator, text);
                self.rest = rest;
                Some(piece)
            }
            None => None,
        }
    }
}

// No piece is left.
fn no_piece(mut pieces: Pieces<'_>) -> Result<(), u8>
    ensures { result ≡ none_of BAD_NUMBER pieces.entry }
{
    match pieces.next() {
        None => Ok(()),
        Some(_) => Err(BAD_NUMBER),
    }
}

// A look: its variable, its value and its number.
#[tactic(auto, unfolding(crate::specs::Parts::look_in))]
fn look_in(mut pieces: Pieces<'_>) -> Result<Part, u8>
    ensures value { result ≡ look_in pieces.entry }
    ensures range { IfOk result (λ p. p.var < VARIABLES) }
{
    let var = natural_in(u64::from(VARIABLES - 1), pieces.next().ok_or(BAD_NUMBER)?)?;
    let value = value_in(pieces.next().ok_or(BAD_NUMBER)?)?;
    let nth = natural_in(MOST_STAMP, pieces.next().ok_or(BAD_NUMBER)?)?;
    no_piece(pieces)?;
    Ok(Part {
        var: var as u16,
        value,
        nth,
    })
}

// A write: its variable and its value.
#[tactic(auto, unfolding(crate::specs::Parts::pair_in))]
fn pair_in(mut pieces: Pieces<'_>) -> Result<Part, u8>
    ensures value { result ≡ pair_in pieces.entry }
    ensures range { IfOk result (λ p. p.var < VARIABLES) }
{
    let var = natural_in(u64::from(VARIABLES - 1), pieces.next().ok_or(BAD_NUMBER)?)?;
    let value = value_in(pieces.next().ok_or(BAD_NUMBER)?)?;
    no_piece(pieces)?;
    Ok(Part {
        var: var as u16,
        value,
        nth: 0,
    })
}

// A number: its variable and the number.
#[tactic(auto, unfolding(crate::specs::Parts::number_in))]
fn number_in(mut pieces: Pieces<'_>) -> Result<Part, u8>
    ensures value { result ≡ number_in pieces.entry }
    ensures range { IfOk result (λ p. p.var < VARIABLES) }
{
    let var = natural_in(u64::from(VARIABLES - 1), pieces.next().ok_or(BAD_NUMBER)?)?;
    let nth = natural_in(MOST_STAMP, pieces.next().ok_or(BAD_NUMBER)?)?;
    no_piece(pieces)?;
    Ok(Part {
        var: var as u16,
        value: 0,
        nth,
    })
}

// A part of such a list.
fn part_in(form: PartForm, piece: &[u8]) -> Result<Part, u8>
    ensures value { result ≡ part_in form piece.now }
    ensures range { IfOk result (λ p. p.var < VARIABLES) }
{
    let pieces = pieces_of(COLON, piece);
    match form {
        PartForm::Look => look_in(pieces),
        PartForm::Pair => pair_in(pieces),
        PartForm::Number => number_in(pieces),
    }
}

// Adds a part.
fn push_part(parts: &mut Vec<Part>, part: Part) -> Result<(), AllocError>
    ensures { OnOk result (parts.new.items ≡ parts.old.items ++ part ∷ []) }
{
    parts.push(part)?;
    Ok(())
}

/// The parts of a list, in any order.
pub fn list_in(alloc: Global, form: PartForm, word: &[u8]) -> Result<Vec<Part>, Refusal>
    ensures ok { IfOk result (λ parts. list_in form word.now ≡ Ok parts.items) }
    ensures fault { IfErr result (Refused (list_in form word.now)) }
    ensures range { IfOk result (λ parts. AllByRecursion (λ p. p.var < VARIABLES) parts.items) }
{
    let mut parts = Vec::new(alloc);
    let mut pieces = list_pieces(word);
    while let Some(piece) = pieces.next() {
        let part = part_in(form, piece)?;
        push_part(&mut parts, part)?;
    }
    Ok(parts)
}

// Whether all parts are of variables above this one.
fn are_above(var: u16, parts: &[Part]) -> bool
    ensures { result ≡ list_all (λ p. nat_lt var p.var) parts.now }
{
    parts.iter().all(|part| var < part.var)
}

// Whether the parts rise by variable.
fn rises(parts: &[Part]) -> bool
    ensures { result ≡ rises parts.now }
{
    match parts {
        [first, others @ ..] => are_above(first.var, others) && rises(others),
        [] => true,
    }
}

/// Whether the parts rise by variable, and are no more than a transaction may have.
pub fn is_set(parts: &[Part]) -> bool
    ensures { result ≡ is_set parts.now }
{
    parts.len() <= usize::from(TX_VARIABLES) && rises(parts)
}

fn look_of(part: Part) -> Look
    ensures { result ≡ look_of part }
{
    Look {
        var: part.var,
        value: part.value,
        nth: part.nth,
    }
}

fn pair_of(part: Part) -> Pair
    ensures { result ≡ pair_of part }
{
    Pair {
        var: part.var,
        value: part.value,
    }
}

fn number_of(part: Part) -> Number
    ensures { result ≡ number_of part }
{
    Number {
        var: part.var,
        nth: part.nth,
    }
}

/// The looks that are these parts.
pub fn looks_of(parts: &[Part]) -> Looks
    requires set { is_set parts.now ≡ true }
    requires range { AllByRecursion (λ p. p.var < VARIABLES) parts.now }
    ensures { result ≡ map look_of parts.now }
{
    let mut looks = Looks::empty();
    for part in parts {
        match looks.put(look_of(*part)) {
            Ok(()) => {}
            Err(_) => unreachable!(),
        }
    }
    looks
}

/// The writes that are these parts.
pub fn pairs_of(parts: &[Part]) -> Pairs
    requires set { is_set parts.now ≡ true }
    requires range { AllByRecursion (λ p. p.var < VARIABLES) parts.now }
    ensures { result ≡ map pair_of parts.now }
{
    let mut pairs = Pairs::empty();
    for part in parts {
        match pairs.put(pair_of(*part)) {
            Ok(()) => {}
            Err(_) => unreachable!(),
        }
    }
    pairs
}

/// The numbers that are these parts.
pub fn numbers_of(parts: &[Part]) -> Numbers
    requires set { is_set parts.now ≡ true }
    requires range { AllByRecursion (λ p. p.var < VARIABLES) parts.now }
    ensures { result ≡ map number_of parts.now }
{
    let mut numbers = Numbers::empty();
    for part in parts {
        match numbers.put(number_of(*part)) {
            Ok(()) => {}
            Err(_) => unreachable!(),
        }
    }
    numbers
}
