// The lines of a program's text.
ghost use Rattle.std.specs.Prelude.{◌≡◌, ◌<◌, ◌+◌, ℕ, ℤ, List, length, MatchOption};
ghost use Rattle.std.specs.List.{before_first, position};
ghost use Rattle.std.specs.Str.{IsTrimAscii};
ghost use Rattle.gl_text.specs.Text.{is_hash};
ghost use Rattle.gl_bytecode.specs.Programs.{Bytecode};
ghost use Rattle.gl_asm.specs.Texts.{IsText};
ghost use Rattle.gl_asm.specs.declared.additions.Addition.{Addition};
ghost use Rattle.gl_sites.specs.SourceLines.{AreAdded, IsLineOf, IsSourceOf};

use crate::adding::{Adds, adds_of};
use gl_text::{Line, Lines};

/// The line of an instruction in the text of its program.
#[derive(Clone, Copy, Debug, PartialEq, Eq)]
pub struct SourceLine<'a> {
    /// The number of the line, from 1 on.
    pub number: u32,
    /// What stands in the line before a comment, without the blanks around it.
    pub text: &'a [u8],
    /// The name of the function.
    pub function: &'a [u8],
}

// The place of the first `#`.
fn comment(line: &[u8]) -> Option<usize>
    ensures { result ≡ position is_hash line.now }
{
    line.iter().position(|b| *b == b'#')
}

// What stands before a comment.
fn without_comment(line: &[u8]) -> &[u8]
    ensures { result.now ≡ before_first is_hash line.now }
{
    match comment(line) {
        Some(end) => &line[..end],
        None => line,
    }
}

// What stands in a line before a comment, without the blanks around it.
fn quote_of(line: &[u8]) -> &[u8]
    ensures { IsTrimAscii (before_first is_hash line.now) result.now }
{
    without_comment(line).trim_ascii()
}

// How far the lines before have come: how many functions there are, how many instructions the last has so far, and its name.
#[derive(Clone, Copy)]
struct Reached<'a> {
    functions: u32,
    instructions: u32,
    name: &'a [u8],
}

impl<'a> Reached<'a> {
    ghost use Rattle.std.specs.Prelude.{◌≡◌, ◌<◌, slice_get};
    ghost use Rattle.gl_text.specs.Text.{words};
    ghost use Rattle.gl_sites.specs.Adding.{finds, functions_after, instructions_after, name_after};

    // Does a line that adds this add the instruction at a place of a function?
    fn finds(&self, adds: Adds, function: u16, place: u16) -> bool
        ensures { result ≡ finds adds self.now.functions self.now.instructions function place }
    {
        match adds {
            Adds::Instruction => {
                self.functions == u32::from(function) + 1 && self.instructions == u32::from(place)
            }
            Adds::Function | Adds::Neither => false,
        }
    }

    // Goes past a line that adds this.
    fn pass(&mut self, adds: Adds, line: &Line<'a>)
        requires functions { self.old.functions < u32.MAX }
        requires instructions { self.old.instructions < u32.MAX }
        ensures functions { self.new.functions ≡ functions_after adds self.old.functions }
        ensures instructions { self.new.instructions ≡ instructions_after adds self.old.instructions }
        ensures name { self.new.name.now ≡ name_after adds (slice_get (words line.now.text) 1) self.old.name.now }
    {
        match adds {
            Adds::Neither => {}
            Adds::Instruction => self.instructions += 1,
            Adds::Function => {
                self.functions += 1;
                self.instructions = 0;
                if let Some(name) = line.word(1) {
                    self.name = name;
                }
            }
        }
    }
}

// The line of an instruction, in a text that is short enough for its lines to be numbered.
fn find_line<'a>(text: &'a [u8], function: u16, place: u16) -> Option<SourceLine<'a>>
    requires { length text.now < u32.MAX }
    ensures { (additions : List Addition) → AreAdded text.now additions → MatchOption result ((n : ℕ) → IsLineOf text.now function place n → ⊥) (λ line. IsSourceOf text.now function place line.number line.text.now line.function.now) }
{
    let mut reached = Reached {
        functions: 0,
        instructions: 0,
        name: b"",
    };
    let mut lines = Lines::new(text);
    while let Some(line) = lines.next_line() {
        let adds = adds_of(line.words());
        if reached.finds(adds, function, place) {
            return Some(SourceLine {
                number: line.number(),
                text: quote_of(line.text()),
                function: reached.name,
            });
        }
        reached.pass(adds, &line);
    }
    None
}

/// The line of an instruction, by the number of its function and its place there, in the text of its program; `None` where the program
/// has no such instruction. Of a text that `assemble` refuses nothing is said.
pub fn line_of<'a>(text: &'a [u8], function: u16, place: u16) -> Option<SourceLine<'a>>
    ensures { (P : Bytecode) (inputs : List ℤ) → IsText text.now P inputs → MatchOption result ((n : ℕ) → IsLineOf text.now function place n → ⊥) (λ line. IsSourceOf text.now function place line.number line.text.now line.function.now) }
{
    if text.len() >= u32::MAX as usize {
        return None;
    }
    find_line(text, function, place)
}
