// The options, and the numbers that they take.
ghost use Rattle.std.specs.Prelude.{◌≡◌, IfSome, Some, unwrap_or};
ghost use Rattle.gl_words.specs.App.{name_of};
ghost use Rattle.gl_words.specs.Options.{AreWithin, IsWithin, given_for, limits_of, number_of, within};

use gl_gen::MOST_TRANSFERS;
use gl_segments::{LEAST_CELLS, LEAST_SEGMENTS, MOST_CELLS, MOST_SEGMENTS};
use gl_text::magnitude;

/// The most workers.
pub const MOST_WORKERS: u32 = 16;

/// The workers where no option says how many.
pub const DEFAULT_WORKERS: u32 = 4;

/// The most steps of a thread.
pub const MOST_STEPS: u32 = 1_000_000;

/// The steps of a thread where no option says how many.
pub const DEFAULT_STEPS: u32 = 200_000;

/// The most digits of an option's number.
pub const MOST_DIGITS: usize = 7;

/// An option that takes a number.
#[derive(Clone, Copy, Debug, PartialEq, Eq)]
pub enum NumberOption {
    /// How many workers run the threads.
    Workers,
    /// How many instructions a thread starts at most.
    Steps,
    /// How many segments the ring of events has.
    Segments,
    /// How many cells a segment has.
    Cells,
    /// How many transfers a thread of the bank makes.
    Size,
}

/// Which numbers an option takes.
#[derive(Clone, Copy, Debug, PartialEq, Eq)]
pub struct Limits {
    pub least: u32,
    pub most: u32,
}

/// The numbers that are given, and whether the option without a number is.
#[derive(Clone, Copy, Debug, PartialEq, Eq)]
pub struct Given {
    pub workers: Option<u32>,
    pub steps: Option<u32>,
    pub segments: Option<u32>,
    pub cells: Option<u32>,
    pub size: Option<u32>,
    pub journal: bool,
}

// ## The table: a row in each function for each option

impl NumberOption {
    // The name that the words give it by.
    pub(crate) fn name<'a>(self) -> &'a str
        ensures { result.now ≡ name_of self }
    {
        match self {
            NumberOption::Workers => "workers",
            NumberOption::Steps => "steps",
            NumberOption::Segments => "segments",
            NumberOption::Cells => "cells",
            NumberOption::Size => "size",
        }
    }

    fn limits(self) -> Limits
        ensures { result ≡ limits_of self }
    {
        match self {
            NumberOption::Workers => Limits {
                least: 1,
                most: MOST_WORKERS,
            },
            NumberOption::Steps => Limits {
                least: 1,
                most: MOST_STEPS,
            },
            NumberOption::Segments => Limits {
                least: LEAST_SEGMENTS as u32,
                most: MOST_SEGMENTS as u32,
            },
            NumberOption::Cells => Limits {
                least: LEAST_CELLS as u32,
                most: MOST_CELLS as u32,
            },
            NumberOption::Size => Limits {
                least: 1,
                most: MOST_TRANSFERS,
            },
        }
    }

    // A number within the limits.
    fn within(self, number: u64) -> Option<u32>
        ensures value { result ≡ within self (Some number) }
        ensures within { IfSome result (IsWithin self) }
    {
        let limits = self.limits();
        if u64::from(limits.least) <= number && number <= u64::from(limits.most) {
            Some(number as u32)
        } else {
            None
        }
    }

    // The number that a word says.
    pub(crate) fn number_of(self, word: &[u8]) -> Option<u32>
        ensures value { result ≡ number_of self word.now }
        ensures within { IfSome result (IsWithin self) }
    {
        if MOST_DIGITS < word.len() {
            return None;
        }
        match magnitude(word) {
            Some(number) => self.within(number),
            None => None,
        }
    }
}

impl Given {
    /// The number that is given for an option.
    pub fn number(self, option: NumberOption) -> Option<u32>
        ensures { result ≡ given_for option self }
    {
        match option {
            NumberOption::Workers => self.workers,
            NumberOption::Steps => self.steps,
            NumberOption::Segments => self.segments,
            NumberOption::Cells => self.cells,
            NumberOption::Size => self.size,
        }
    }

    /// The number that is given for an option, or else this one.
    pub fn number_or(self, option: NumberOption, standard: u32) -> u32
        requires { IsWithin option standard }
        ensures value { result ≡ unwrap_or (given_for option self) standard }
        ensures within { AreWithin self → IsWithin option result }
    {
        match self.number(option) {
            Some(number) => number,
            None => standard,
        }
    }
}
