// The words that give options, read by clap.
ghost use Rattle.std.specs.Prelude.{◌≡◌, Bool, IfOk, IfSome, false, codes, map, string_bytes, Some};
ghost use Rattle.std.specs.List.{list_any};
ghost use Rattle.clap.specs.Matches.{first_value, found_of, one_text};
ghost use Rattle.clap.specs.Values.{bool_text};
ghost use Rattle.clap.specs.Words.{FailsBy, HasMatchesOf, app_of, fault_of, rule_of};
ghost use Rattle.gl_words.specs.App.{bare_app, is_dashes, journal_rule, name_of, number_rule, options_app};
ghost use Rattle.gl_words.specs.Options.{AreWithin, IsWithin, nothing_given, read_options};
ghost use Rattle.gl_words.specs.Texts.{given_texts, number_in};

use crate::options::{Given, NumberOption};
use clap::error::ErrorKind;
use clap::{Arg, ArgAction, ArgMatches, Command, Error};
use std::alloc::{AllocError, Global};

// The option with this number, as clap knows it.
fn number_argument<'a>(alloc: Global, option: NumberOption) -> Arg<'a>
    ensures rule { rule_of result ≡ number_rule option }
    ensures local { result.global ≡ false }
{
    let name = option.name();
    Arg::new(alloc, name).long(name).action(ArgAction::Set)
}

fn journal_argument<'a>(alloc: Global) -> Arg<'a>
    ensures rule { rule_of result ≡ journal_rule }
    ensures local { result.global ≡ false }
{
    Arg::new(alloc, "journal")
        .long("journal")
        .action(ArgAction::SetTrue)
}

fn bare_command<'a>(alloc: Global) -> Command<'a>
    ensures { app_of result ≡ bare_app }
{
    Command::new(alloc, "goldi")
        .no_binary_name(true)
        .disable_help_flag(true)
}

// All options, with no help, no version and no program's name among the words.
fn command<'a>(alloc: Global) -> Result<Command<'a>, AllocError>
    ensures { IfOk result (λ c. app_of c ≡ options_app) }
{
    bare_command(alloc)
        .arg(number_argument(alloc, NumberOption::Workers))?
        .arg(number_argument(alloc, NumberOption::Steps))?
        .arg(number_argument(alloc, NumberOption::Segments))?
        .arg(number_argument(alloc, NumberOption::Cells))?
        .arg(number_argument(alloc, NumberOption::Size))?
        .arg(journal_argument(alloc))
}

// What clap finds in the words.
fn parsed<'a>(alloc: Global, words: &'a [String]) -> Result<ArgMatches<'a>, Error>
    ensures exact { FailsBy (fault_of options_app (map string_bytes words.entry.now)) result }
    ensures matches { IfOk result (HasMatchesOf options_app (map string_bytes words.entry.now)) }
{
    command(alloc)?.try_get_matches_from(words)
}

// The number of an option, if its text is one.
fn number(matches: &ArgMatches<'_>, option: NumberOption) -> Option<Option<u32>>
    ensures value { result ≡ number_in option (first_value (found_of matches.now) (name_of option)) }
    ensures within { IfSome result (λ number. IfSome number (IsWithin option)) }
{
    match matches.get_str(option.name()) {
        Some(text) => Some(Some(option.number_of(text.as_bytes())?)),
        None => Some(None),
    }
}

// What is given, if each text is a number of its option.
fn given(matches: &ArgMatches<'_>) -> Option<Given>
    ensures value { (asked : Bool) → one_text (found_of matches.now) (codes "journal") ≡ Some (bool_text asked)
        → result ≡ given_texts (λ o. first_value (found_of matches.now) (name_of o)) asked }
    ensures within { IfSome result AreWithin }
{
    Some(Given {
        workers: number(matches, NumberOption::Workers)?,
        steps: number(matches, NumberOption::Steps)?,
        segments: number(matches, NumberOption::Segments)?,
        cells: number(matches, NumberOption::Cells)?,
        size: number(matches, NumberOption::Size)?,
        journal: matches.get_flag("journal"),
    })
}

// Whether a word is `--`, which clap would take for the end of the options.
fn has_dashes(words: &[String]) -> bool
    ensures { result ≡ list_any (λ word. is_dashes (string_bytes word)) words.now }
{
    words.iter().any(|word| is_dashes(word.as_bytes()))
}

fn is_dashes(word: &[u8]) -> bool
    ensures { result ≡ is_dashes word.now }
{
    matches!(word, b"--")
}

/// What the words give, if they are options, each at most once, in any order.
pub fn given_by(alloc: Global, words: &[String]) -> Result<Option<Given>, AllocError>
    ensures value { IfOk result (λ given. given ≡ read_options nothing_given (map string_bytes words.now)) }
    ensures within { IfOk result (λ given. IfSome given AreWithin) }
{
    if has_dashes(words) {
        return Ok(None);
    }
    match parsed(alloc, words) {
        Ok(matches) => Ok(given(&matches)),
        Err(error) => match error.kind() {
            ErrorKind::OutOfMemory => Err(AllocError),
            _ => Ok(None),
        },
    }
}
