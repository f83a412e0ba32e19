// The names that the lines of a text define.
ghost use Rattle.std.specs.Prelude.{slice_get, ◌≡◌, ◌<◌, ◌++◌, ◌∷◌, [], IfOk, OnOk, MatchOption, Some, None, length, option_map};
ghost use Rattle.std.specs.Str.Lines.{lines};
ghost use Rattle.gl_asm.specs.Definitions.{defined_word, definition_of, definitions, first_definition, named, number_of, scope_of};
ghost use Rattle.gl_asm.specs.NameIndex.{IsNoted, scope_key};

use crate::forms::{Counts, Form, form_of};
use crate::names::{is_name, label_of};
use gl_text::{Lines, Words};
use std::alloc::{AllocError, Global};
use std::collections::BTreeMap;
use std::marker::Model;

/// Where a name is known; a label in the function of this number, from 1 on.
#[derive(Clone, Copy, Debug, PartialEq, Eq)]
pub enum Scope {
    Classes,
    Functions,
    Labels(u16),
}

/// A name, as it stands in the text.
#[derive(Drop)]
pub struct Name<'a> {
    bytes: &'a [u8],
}

// Seen as its bytes.
impl<'a> Model for Name<'a> {
    ghost use Rattle.std.specs.Prelude.{List, ℕ};

    ghost Value = { List ℕ };

    ghost view = { λ n. n.bytes.now };
}

/// A name that a line defines, and what it stands for: the number of a class or a function, or the place of a label.
#[derive(Drop)]
pub struct Definition<'a> {
    pub scope: Scope,
    pub name: Name<'a>,
    pub line: u32,
    pub number: u16,
}

// The number of a scope, and a name in it.
type Key<'a> = (u32, &'a [u8]);

// The scope as a number of its own.
fn scope_key(scope: Scope) -> u32
    ensures { result ≡ scope_key scope }
{
    match scope {
        Scope::Classes => 0,
        Scope::Functions => 1,
        Scope::Labels(function) => u32::from(function) + 2,
    }
}

impl<'a> Definition<'a> {
    // The scope's number and the name.
    fn key(&self) -> Key<'a>
        ensures scope { result.0 ≡ scope_key self.now.scope }
        ensures name { result.1.now ≡ self.now.name }
    {
        (scope_key(self.scope), self.name.bytes)
    }
}

// Gives a key this place, unless it has one.
fn note<'a>(
    index: &mut BTreeMap<Key<'a>, usize>,
    key: Key<'a>,
    place: usize,
) -> Result<(), AllocError>
    ensures { OnOk result (IsNoted index.old index.new key.entry place) }
{
    if !index.contains_key(&key) {
        index.insert(key, place)?;
    }
    Ok(())
}

// The line of the definition in this place, and what its name stands for.
fn meaning_at(list: &[Definition<'_>], place: usize) -> Option<(u32, u16)>
    ensures { result ≡ option_map (λ d. (d.line, d.number)) (slice_get list.now place) }
{
    match list.get(place) {
        Some(definition) => Some((definition.line, definition.number)),
        None => None,
    }
}

/// What the lines of a text define, in their order, and where each name's first definition is among them.
#[derive(Drop)]
pub struct DefinedNames<'a> {
    list: Vec<Definition<'a>>,
    index: BTreeMap<Key<'a>, usize>,
}

// Seen as the definitions.
impl<'a> Model for DefinedNames<'a> {
    ghost use Rattle.std.specs.Prelude.{List};
    ghost use Rattle.gl_asm.specs.declared.definitions.Definition.{Definition};
    ghost use Rattle.gl_asm.specs.NameIndex.{IsIndex};

    ghost Value = { List Definition };

    ghost view = { λ t. t.list.items };

    ghost invariant = { λ t. IsIndex t.list.items t.index };
}

impl<'a> DefinedNames<'a> {
    // No definition.
    fn none_yet(alloc: Global) -> Self
        ensures { result ≡ [] }
    {
        DefinedNames {
            list: Vec::new(alloc),
            index: BTreeMap::new(alloc),
        }
    }

    // With a definition behind the others.
    fn with(self, definition: Definition<'a>) -> Result<Self, AllocError>
        ensures { IfOk result (λ table. table ≡ self.entry ++ definition.entry ∷ []) }
    {
        let DefinedNames {
            mut list,
            mut index,
        } = self;
        note(&mut index, definition.key(), list.len())?;
        list.push(definition)?;
        Ok(DefinedNames { list, index })
    }

    /// The line of the first definition of a name, and what the name stands for.
    pub fn first(&self, scope: Scope, name: &'a [u8]) -> Option<(u32, u16)>
        ensures { result ≡ option_map (λ d. (d.line, d.number)) (first_definition self.now scope name.now) }
    {
        match self.index.get(&(scope_key(scope), name)) {
            Some(place) => meaning_at(&self.list, *place),
            None => None,
        }
    }
}

fn first(mut words: Words<'_>) -> Option<&[u8]>
    ensures { MatchOption result (slice_get words.entry 0 ≡ None) (λ word. slice_get words.entry 0 ≡ Some word.now) }
{
    words.next()
}

fn second(mut words: Words<'_>) -> Option<&[u8]>
    ensures { MatchOption result (slice_get words.entry 1 ≡ None) (λ word. slice_get words.entry 1 ≡ Some word.now) }
{
    words.next()?;
    words.next()
}

/// The word in a defined name's place.
pub fn defined_word(form: Option<Form>, words: Words<'_>) -> Option<&[u8]>
    ensures { MatchOption result (defined_word form words.entry ≡ None) (λ word. defined_word form words.entry ≡ Some word.now) }
{
    match form {
        Some(Form::Class) | Some(Form::Function) => second(words),
        Some(Form::Label) => label_of(first(words)?),
        _ => None,
    }
}

// The scope of the name that a line of this form defines.
fn scope_of(counts: Counts, form: Option<Form>) -> Scope
    ensures { result ≡ scope_of counts form }
{
    match form {
        Some(Form::Class) => Scope::Classes,
        Some(Form::Function) => Scope::Functions,
        _ => Scope::Labels(counts.functions),
    }
}

// What the name stands for that a line of this form defines.
fn number_of(counts: Counts, form: Option<Form>) -> u16
    ensures { result ≡ number_of counts form }
{
    match form {
        Some(Form::Class) => counts.classes,
        Some(Form::Function) => counts.functions,
        _ => counts.places,
    }
}

// The definition of a word, if it is a name.
fn named(scope: Scope, line: u32, number: u16, word: Option<&[u8]>) -> Option<Definition<'_>>
    ensures { result ≡ named scope line number (option_map (λ w. w.now) word.entry) }
{
    let word = word?;
    if !is_name(word) {
        return None;
    }
    Some(Definition {
        scope,
        name: Name { bytes: word },
        line,
        number,
    })
}

// What a line defines.
fn definition_of(
    counts: Counts,
    line: u32,
    form: Option<Form>,
    words: Words<'_>,
) -> Option<Definition<'_>>
    ensures { result ≡ definition_of counts line form words.entry }
{
    let word = defined_word(form, words);
    named(scope_of(counts, form), line, number_of(counts, form), word)
}

/// What all lines of a text define, in their order.
pub fn definitions(alloc: Global, text: &[u8]) -> Result<DefinedNames<'_>, AllocError>
    requires { length text.now < u32.MAX }
    ensures { IfOk result (λ table. table ≡ definitions (lines text.now)) }
{
    let mut table = DefinedNames::none_yet(alloc);
    let mut counts = Counts::none_yet();
    let mut lines = Lines::new(text);
    while let Some(line) = lines.next_line() {
        let form = form_of(line.words());
        if let Some(definition) = definition_of(counts, line.number(), form, line.words()) {
            table = table.with(definition)?;
        }
        counts = counts.counted(form);
    }
    Ok(table)
}
