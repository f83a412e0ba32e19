// What a line adds, as its words tell.
ghost use Rattle.std.specs.Prelude.{◌≡◌, MatchOption, Some, None, bytes_eq};
ghost use Rattle.gl_asm.specs.Names.{label_of};
ghost use Rattle.gl_sites.specs.Adding.{word_adds, words_add};

use gl_text::Words;

/// What a line adds, as far as it moves the place of the next instruction.
#[derive(Clone, Copy, Debug, PartialEq, Eq)]
pub(crate) enum Adds {
    Function,
    Instruction,
    Neither,
}

// What stands before the colon at the end of a word.
fn label_of(word: &[u8]) -> Option<&[u8]>
    ensures { MatchOption result (label_of word.now ≡ None) (λ name. label_of word.now ≡ Some name.now) }
{
    match word {
        [name @ .., last] if *last == b':' => Some(name),
        _ => None,
    }
}

// Are the two words the same?
fn same(one: &[u8], other: &[u8]) -> bool
    ensures { result ≡ bytes_eq one.now other.now }
{
    one == other
}

// What a line adds that begins with this word, which is not a label.
fn word_adds(word: &[u8], alone: bool) -> Adds
    ensures { result ≡ word_adds word.now alone }
{
    if same(word, b"class") {
        return Adds::Neither;
    }
    if same(word, b"func") {
        return Adds::Function;
    }
    if same(word, b"catch") {
        return Adds::Neither;
    }
    if same(word, b"input") && !alone {
        return Adds::Neither;
    }
    Adds::Instruction
}

/// What a line of these words adds, where they tell a form.
pub(crate) fn adds_of(mut words: Words<'_>) -> Adds
    ensures { result ≡ words_add words.entry }
{
    match (words.next(), words.next()) {
        (None, _) => Adds::Neither,
        (Some(word), None) => match label_of(word) {
            Some(_) => Adds::Neither,
            None => word_adds(word, true),
        },
        (Some(word), Some(_)) => word_adds(word, false),
    }
}
