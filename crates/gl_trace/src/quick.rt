// Lines of the usual form, in one pass: a thread, a word and a number with one space between, or the rising lists of a commit. What
// is taken here is what the full reader says of the line; all else is left to that.
ghost use Rattle.std.specs.Prelude.{◌≡◌, ◌≤◌, ◌<◌, List, ◌∷◌, ℕ, IfSome, length, take, drop, true, Ok, Some};
ghost use Rattle.std.specs.List.{list_all};
ghost use Rattle.std.specs.Char.{is_ascii_digit};
ghost use Rattle.gl_model.specs.TraceSteps.{IsStep};
ghost use Rattle.gl_text.specs.Number.{digits_value};
ghost use Rattle.gl_text.specs.Text.{words};
ghost use Rattle.gl_trace.specs.Form.{form_of};
ghost use Rattle.gl_trace.specs.Ids.{operand_of, set_of, is_set};
ghost use Rattle.gl_trace.specs.Kept.{IsItemKept};
ghost use Rattle.gl_trace.specs.Phrase.{said};
ghost use Rattle.gl_trace.specs.Quick.{Begins, IsFirstLine};
ghost use Rattle.gl_trace.specs.declared.form.Form.TheVariants.{One};

use crate::form::Verb;
use crate::ids::put_last;
use gl_model::{Item, THREADS, VARIABLES, VarSet};

// Numbers of a usual line have so many digits at most.
const DIGITS: usize = 4;

// The digits at the front of a text, as far as there may be so many: how many there are, and their value.
fn digits(text: &[u8]) -> (usize, u32)
    ensures few { result.0 ≤ DIGITS }
    ensures within { result.0 ≤ length text.now }
    ensures all { list_all is_ascii_digit (take result.0 text.now) ≡ true }
    ensures value { result.1 ≡ digits_value (take result.0 text.now) }
{
    let mut value: u32 = 0;
    for (i, digit) in text.iter().enumerate() {
        if i == DIGITS || !digit.is_ascii_digit() {
            return (i, value);
        }
        value = value * 10 + u32::from(*digit - b'0');
    }
    (text.len(), value)
}

// What follows so many bytes and the byte that stops them.
fn after_stop(text: &[u8], count: usize, stop: u8) -> Option<&[u8]>
    requires { count ≤ length text.now }
    ensures { IfSome result (λ rest. drop count text.now ≡ stop ∷ rest.now) }
{
    match &text[count..] {
        [b, rest @ ..] if *b == stop => Some(rest),
        _ => None,
    }
}

// A number up to a limit and the byte that stops it, at the front of a text, and what follows.
fn number_before(text: &[u8], most: u16, stop: u8) -> Option<(u16, &[u8])>
    ensures value { IfSome result (λ x. (word : List ℕ) × Begins text.now word stop x.1.now × (operand_of most word ≡ Ok x.0) × (list_all is_ascii_digit word ≡ true)) }
    ensures shorter { IfSome result (λ x. length x.1.now < length text.now) }
    ensures bound { IfSome result (λ x. x.0 ≤ most) }
{
    let (count, value) = digits(text);
    if count == 0 || value > u32::from(most) {
        return None;
    }
    let rest = after_stop(text, count, stop)?;
    Some((value as u16, rest))
}

// What follows two bytes and a space at the front of a text.
fn after_two(text: &[u8], a: u8, b: u8) -> Option<&[u8]>
    ensures { IfSome result (λ rest. text.now ≡ a ∷ (b ∷ (32 ∷ rest.now))) }
{
    match text {
        [x, y, b' ', rest @ ..] if *x == a && *y == b => Some(rest),
        _ => None,
    }
}

// What follows three bytes and a space.
fn after_three(text: &[u8], a: u8, b: u8, c: u8) -> Option<&[u8]>
    ensures { IfSome result (λ rest. text.now ≡ a ∷ (b ∷ (c ∷ (32 ∷ rest.now)))) }
{
    match text {
        [x, rest @ ..] if *x == a => after_two(rest, b, c),
        _ => None,
    }
}

// What follows four bytes and a space.
fn after_four(text: &[u8], a: u8, b: u8, c: u8, d: u8) -> Option<&[u8]>
    ensures { IfSome result (λ rest. text.now ≡ a ∷ (b ∷ (c ∷ (d ∷ (32 ∷ rest.now))))) }
{
    match text {
        [x, rest @ ..] if *x == a => after_three(rest, b, c, d),
        _ => None,
    }
}

// The word that tells an access and the space behind it, at the front of a text, and what follows.
fn access_before(text: &[u8]) -> Option<(Verb, &[u8])>
    ensures { IfSome result (λ x. (word : List ℕ) × Begins text.now word 32 x.1.now × (form_of word ≡ Ok (One x.0))) }
{
    if let Some(rest) = after_two(text, b'r', b'd') {
        return Some((Verb::Read, rest));
    }
    let rest = after_two(text, b'w', b'r')?;
    Some((Verb::Write, rest))
}

// The same for a monitor.
fn monitor_before(text: &[u8]) -> Option<(Verb, &[u8])>
    ensures { IfSome result (λ x. (word : List ℕ) × Begins text.now word 32 x.1.now × (form_of word ≡ Ok (One x.0))) }
{
    if let Some(rest) = after_three(text, b'a', b'c', b'q') {
        return Some((Verb::Acquire, rest));
    }
    let rest = after_three(text, b'r', b'e', b'l')?;
    Some((Verb::Release, rest))
}

// The same for a volatile.
fn volatile_before(text: &[u8]) -> Option<(Verb, &[u8])>
    ensures { IfSome result (λ x. (word : List ℕ) × Begins text.now word 32 x.1.now × (form_of word ≡ Ok (One x.0))) }
{
    if let Some(rest) = after_two(text, b'v', b'r') {
        return Some((Verb::VolatileRead, rest));
    }
    let rest = after_two(text, b'v', b'w')?;
    Some((Verb::VolatileWrite, rest))
}

// The same for another thread.
fn thread_before(text: &[u8]) -> Option<(Verb, &[u8])>
    ensures { IfSome result (λ x. (word : List ℕ) × Begins text.now word 32 x.1.now × (form_of word ≡ Ok (One x.0))) }
{
    if let Some(rest) = after_four(text, b'f', b'o', b'r', b'k') {
        return Some((Verb::Fork, rest));
    }
    let rest = after_four(text, b'j', b'o', b'i', b'n')?;
    Some((Verb::Join, rest))
}

// The word that tells a line with one operand and the space behind it, at the front of a text, and what follows.
fn verb_before(text: &[u8]) -> Option<(Verb, &[u8])>
    ensures { IfSome result (λ x. (word : List ℕ) × Begins text.now word 32 x.1.now × (form_of word ≡ Ok (One x.0))) }
{
    if let Some(told) = access_before(text) {
        return Some(told);
    }
    if let Some(told) = monitor_before(text) {
        return Some(told);
    }
    if let Some(told) = volatile_before(text) {
        return Some(told);
    }
    thread_before(text)
}

// What follows a byte at the front of a text.
fn after_byte(text: &[u8], byte: u8) -> Option<&[u8]>
    ensures { IfSome result (λ rest. text.now ≡ byte ∷ rest.now) }
{
    match text {
        [b, rest @ ..] if *b == byte => Some(rest),
        _ => None,
    }
}

// What follows `com`.
fn after_com(text: &[u8]) -> Option<&[u8]>
    ensures { IfSome result (λ rest. text.now ≡ 99 ∷ (111 ∷ (109 ∷ rest.now))) }
{
    after_byte(after_byte(after_byte(text, b'c')?, b'o')?, b'm')
}

// The word of a commit and the space behind it, and what follows.
fn after_commit(text: &[u8]) -> Option<&[u8]>
    ensures { IfSome result (λ rest. text.now ≡ 99 ∷ (111 ∷ (109 ∷ (109 ∷ (105 ∷ (116 ∷ (32 ∷ rest.now))))))) }
{
    after_three(after_com(text)?, b'm', b'i', b't')
}

// What follows a letter and a space.
fn after_letter(text: &[u8], letter: u8) -> Option<&[u8]>
    ensures { IfSome result (λ rest. text.now ≡ letter ∷ (32 ∷ rest.now)) }
{
    after_byte(after_byte(text, letter)?, b' ')
}

// What follows a minus and the byte that stops it.
fn after_minus(text: &[u8], stop: u8) -> Option<&[u8]>
    ensures { IfSome result (λ rest. text.now ≡ 45 ∷ (stop ∷ rest.now)) }
{
    after_byte(after_byte(text, b'-')?, stop)
}

// A list of variables that rises, and the byte that stops it, at the front of a text: the variables are written to their place, and what
// follows is answered.
fn rising_before<'a>(text: &'a [u8], stop: u8, kept: &mut VarSet) -> Option<&'a [u8]>
    ensures { IfSome result (λ rest. (word : List ℕ) × Begins text.now word stop rest.now × (set_of word ≡ Ok (Some kept.new)) × (is_set kept.new ≡ true)) }
{
    *kept = VarSet::empty();
    let mut rest = text;
    while let Some((id, more)) = number_before(rest, VARIABLES - 1, b',') {
        if !put_last(kept, id) {
            return None;
        }
        rest = more;
    }
    let (id, behind) = number_before(rest, VARIABLES - 1, stop)?;
    if put_last(kept, id) {
        Some(behind)
    } else {
        None
    }
}

// A list of variables that is a set, as `rising_before`.
fn set_before<'a>(text: &'a [u8], stop: u8, kept: &mut VarSet) -> Option<&'a [u8]>
    ensures { IfSome result (λ rest. (word : List ℕ) × Begins text.now word stop rest.now × (set_of word ≡ Ok (Some kept.new)) × (is_set kept.new ≡ true)) }
{
    if let Some(rest) = after_minus(text, stop) {
        *kept = VarSet::empty();
        return Some(rest);
    }
    rising_before(text, stop, kept)
}

// What the first line of a text says, where it is a thread, a word and a number, as `quick_line`.
fn quick_verb<'a>(text: &'a [u8], item: &mut Item) -> Option<(u8, &'a [u8])>
    ensures said { IfSome result (λ x. (line : List ℕ) × IsFirstLine text.now line x.1.now × (said (words line) ≡ Ok (Some (x.0, item.new)))) }
    ensures range { IfSome result (λ x. IsStep (x.0, item.new)) }
    ensures set { IfSome result (λ x. IsItemKept item.new) }
{
    let (thread, rest) = number_before(text, u16::from(THREADS) - 1, b' ')?;
    let (verb, last) = verb_before(rest)?;
    let (operand, behind) = number_before(last, verb.most(), b'\n')?;
    *item = verb.with(operand);
    Some((thread as u8, behind))
}

// What the first line of a text says, where it is a commit of two rising lists, as `quick_line`.
#[inline(never)]
fn quick_commit<'a>(text: &'a [u8], item: &mut Item) -> Option<(u8, &'a [u8])>
    ensures said { IfSome result (λ x. (line : List ℕ) × IsFirstLine text.now line x.1.now × (said (words line) ≡ Ok (Some (x.0, item.new)))) }
    ensures range { IfSome result (λ x. IsStep (x.0, item.new)) }
    ensures set { IfSome result (λ x. IsItemKept item.new) }
{
    let (thread, rest) = number_before(text, u16::from(THREADS) - 1, b' ')?;
    let lists = after_commit(rest)?;
    let first = after_letter(lists, b'r')?;
    let mut reads = VarSet::empty();
    let more = set_before(first, b' ', &mut reads)?;
    let second = after_letter(more, b'w')?;
    let mut writes = VarSet::empty();
    let behind = set_before(second, b'\n', &mut writes)?;
    *item = Item::Commit { reads, writes };
    Some((thread as u8, behind))
}

/// What the first line of a text says, where it is of the usual form and ends with a line feed: its thread and what is behind it are
/// answered, and its item is written to its place. `None` says nothing of the line.
pub fn quick_line<'a>(text: &'a [u8], item: &mut Item) -> Option<(u8, &'a [u8])>
    ensures said { IfSome result (λ x. (line : List ℕ) × IsFirstLine text.now line x.1.now × (said (words line) ≡ Ok (Some (x.0, item.new)))) }
    ensures range { IfSome result (λ x. IsStep (x.0, item.new)) }
    ensures set { IfSome result (λ x. IsItemKept item.new) }
{
    match quick_verb(text, item) {
        Some(read) => Some(read),
        None => quick_commit(text, item),
    }
}
