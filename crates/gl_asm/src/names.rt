// Names, and the words that define labels.
ghost use Rattle.std.specs.Prelude.{◌≡◌, MatchOption, false, bytes_eq};
ghost use Rattle.std.specs.List.{list_all};
ghost use Rattle.gl_asm.specs.Names.{is_name_byte, is_name, label_of};

use crate::limits::NAME_TAIL;

// What a name has beside letters and digits.
const UNDERSCORE: u8 = b'_';

// What ends the word of a label's line.
const COLON: u8 = b':';

fn is_name_byte(byte: u8) -> bool
    ensures { result ≡ is_name_byte byte }
{
    byte.is_ascii_alphanumeric() || byte == UNDERSCORE
}

fn are_name_bytes(bytes: &[u8]) -> bool
    ensures { result ≡ list_all is_name_byte bytes.now }
{
    bytes.iter().all(|byte| is_name_byte(*byte))
}

/// Whether a word is a name: a letter, and then at most `NAME_TAIL` letters, digits and `_`.
pub fn is_name(word: &[u8]) -> bool
    ensures { result ≡ is_name word.now }
{
    match word {
        [first, others @ ..] => {
            first.is_ascii_alphabetic() && others.len() <= NAME_TAIL && are_name_bytes(others)
        }
        [] => false,
    }
}

/// Whether two words are the same.
pub fn same(one: &[u8], other: &[u8]) -> bool
    ensures { result ≡ bytes_eq one.now other.now }
{
    one == other
}

/// What stands before the colon at the end of a word.
pub fn label_of(word: &[u8]) -> Option<&[u8]>
    ensures { MatchOption result (label_of word.now ≡ None) (λ name. label_of word.now ≡ Some name.now) }
{
    match word {
        [name @ .., last] if *last == COLON => Some(name),
        _ => None,
    }
}
