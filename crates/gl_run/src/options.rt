// The options of the commands that run a program, by what the words give.
ghost use Rattle.std.specs.Prelude.{◌≡◌, IfOk, IfSome, map, string_bytes, unwrap_or};
ghost use Rattle.gl_segments.specs.Rings.{IsRing};
ghost use Rattle.gl_threads.specs.Options.{AreOptions};
ghost use Rattle.gl_words.specs.Options.{AreWithin, IsWithin};
ghost use Rattle.gl_words.specs.declared.options.NumberOption.TheVariants.{Workers};
ghost use Rattle.gl_run.specs.Options.{IsLoad, load_of, load_options, options_of, ring_of, run_of, run_options, suits_load};

use gl_segments::{MOST_CELLS, MOST_SEGMENTS, Ring};
use gl_threads::Options;
use gl_words::{DEFAULT_STEPS, DEFAULT_WORKERS, Given, NumberOption, given_by};
use std::alloc::{AllocError, Global};

/// How a load is asked for: how many transfers each thread makes, and how many workers run the threads.
#[derive(Clone, Copy, Debug, PartialEq, Eq)]
pub struct LoadOptions {
    pub size: u32,
    pub workers: u8,
}

/// How a run is asked for: how its threads are run, and whether its record is written after the report.
#[derive(Clone, Copy)]
pub struct RunOptions {
    pub threads: Options,
    pub journal: bool,
}

// How many workers run the threads.
#[tactic(auto, using(crate::proofs::OptionWords::workers_standard))]
fn workers_of(given: Given) -> u8
    requires { AreWithin given }
    ensures value { result ≡ unwrap_or given.workers DEFAULT_WORKERS }
    ensures within { IsWithin Workers result }
{
    given.number_or(NumberOption::Workers, DEFAULT_WORKERS) as u8
}

// The ring of events.
#[tactic(auto, using(crate::proofs::OptionWords::segments_standard, crate::proofs::OptionWords::cells_standard))]
fn ring_of(given: Given) -> Ring
    requires { AreWithin given }
    ensures value { result ≡ ring_of given }
    ensures valid { IsRing result }
{
    Ring {
        segments: given.number_or(NumberOption::Segments, MOST_SEGMENTS as u32) as u16,
        cells: given.number_or(NumberOption::Cells, MOST_CELLS as u32) as u16,
    }
}

// The options of a run to which these numbers are given.
#[tactic(auto, using(crate::proofs::OptionWords::steps_standard))]
fn options_of(given: Given) -> Options
    requires { AreWithin given }
    ensures value { result ≡ options_of given }
    ensures valid { AreOptions result }
{
    Options {
        workers: workers_of(given),
        steps: given.number_or(NumberOption::Steps, DEFAULT_STEPS),
        ring: ring_of(given),
    }
}

// The options of a run, if these are given to one: it takes no size.
fn run_of(given: Given) -> Option<RunOptions>
    requires { AreWithin given }
    ensures value { result ≡ run_of given }
    ensures valid { IfSome result (λ asked. AreOptions asked.threads) }
{
    if given.size.is_none() {
        Some(RunOptions {
            threads: options_of(given),
            journal: given.journal,
        })
    } else {
        None
    }
}

// Whether no option is given that a load does not take.
fn suits_load(given: Given) -> bool
    ensures { result ≡ suits_load given }
{
    given.steps.is_none() && given.segments.is_none() && given.cells.is_none() && !given.journal
}

// The options of a load, if these are given to one: it takes a size and workers alone, and needs the size.
fn load_of(given: Given) -> Option<LoadOptions>
    requires { AreWithin given }
    ensures value { result ≡ load_of given }
    ensures valid { IfSome result IsLoad }
{
    if !suits_load(given) {
        return None;
    }
    match given.number(NumberOption::Size) {
        Some(size) => Some(LoadOptions {
            size,
            workers: workers_of(given),
        }),
        None => None,
    }
}

/// The options that the words of a run say.
pub fn run_options(alloc: Global, words: &[String]) -> Result<Option<RunOptions>, AllocError>
    ensures value { IfOk result (λ asked. asked ≡ run_options (map string_bytes words.now)) }
    ensures valid { IfOk result (λ asked. IfSome asked (λ a. AreOptions a.threads)) }
{
    match given_by(alloc, words)? {
        Some(given) => Ok(run_of(given)),
        None => Ok(None),
    }
}

/// The options that the words of a load say.
pub fn load_options(alloc: Global, words: &[String]) -> Result<Option<LoadOptions>, AllocError>
    ensures value { IfOk result (λ asked. asked ≡ load_options (map string_bytes words.now)) }
    ensures valid { IfOk result (λ asked. IfSome asked IsLoad) }
{
    match given_by(alloc, words)? {
        Some(given) => Ok(load_of(given)),
        None => Ok(None),
    }
}
