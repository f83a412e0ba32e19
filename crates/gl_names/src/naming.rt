// What one line names.
ghost use Rattle.std.specs.Prelude.{◌≡◌, ◌<◌, IfSome, MatchOption, Some, None, true, false};
ghost use Rattle.gl_names.specs.Names.{count_of, id_of, is_name, named, named_by};

use crate::kind::{Kind, NAME_BYTES};
use gl_text::{Words, is_bad, magnitude, words_of};

// The number of one of the kind.
fn id(kind: Kind, word: &[u8]) -> Option<u16>
    ensures value { result ≡ id_of kind word.now }
    ensures range { IfSome result (λ n. n < count_of kind) }
{
    let n = magnitude(word)?;
    if n < u64::from(kind.count()) {
        Some(n as u16)
    } else {
        None
    }
}

// Whether a word is a name.
fn is_name(word: &[u8]) -> bool
    ensures { result ≡ is_name word.now }
{
    word.len() <= NAME_BYTES && !is_bad(word)
}

// The text of a name.
#[tactic(auto, using(crate::proofs::NameLemmas::name_is_text))]
fn text_of(word: &[u8]) -> Option<&str>
    ensures { MatchOption result (is_name word.now ≡ false) (λ s. (is_name word.now ≡ true) × (s.now ≡ word.now)) }
{
    if !is_name(word) {
        return None;
    }
    match str::from_utf8(word) {
        Ok(text) => Some(text),
        Err(_) => None,
    }
}

// The number and the name that these words give to one of the kind.
fn named_by<'a>(kind: Kind, mut words: Words<'a>) -> Option<(u16, &'a str)>
    ensures value { MatchOption result (named_by kind words.entry ≡ None) (λ x. named_by kind words.entry ≡ Some (x.0, x.1.now)) }
    ensures range { IfSome result (λ x. x.0 < count_of kind) }
{
    let what = words.next()?;
    let number = words.next()?;
    let name = words.next()?;
    if words.next().is_some() {
        return None;
    }
    if what != kind.word() {
        return None;
    }
    let id = id(kind, number)?;
    Some((id, text_of(name)?))
}

/// The number and the name that the line gives to one of the kind.
pub fn named<'a>(kind: Kind, line: &'a [u8]) -> Option<(u16, &'a str)>
    ensures value { MatchOption result (named kind line.now ≡ None) (λ x. named kind line.now ≡ Some (x.0, x.1.now)) }
    ensures range { IfSome result (λ x. x.0 < count_of kind) }
{
    match line {
        [b'#', rest @ ..] => named_by(kind, words_of(rest)),
        _ => None,
    }
}
