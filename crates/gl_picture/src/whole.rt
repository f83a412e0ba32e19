// A whole trace text.
ghost use Rattle.std.specs.Prelude.{◌<◌, IfOk};
ghost use Rattle.gl_explain.specs.First.{AreSought};
ghost use Rattle.gl_explain.specs.Told.{told_of};
ghost use Rattle.gl_picture.specs.Answers.{IsAnswered, PicturesText};

use crate::drawn::picture_of;
use crate::text::{push_picture, push_quiet};
use gl_explain::{First, Kept, Page, Sought, first_race, refused};
use gl_names::names_of;
use gl_shortcut::Cuts;
use std::alloc::{AllocError, Global};

// The page of a first race, if there is one.
fn page(
    alloc: Global,
    input: &[u8],
    kept: &[Kept],
    first: &Option<First>,
) -> Result<Page, AllocError>
    requires { AreSought input.now (told_of kept.now) first.now }
    ensures { IfOk result (λ p. IsAnswered input.now (told_of kept.now) first.now p.status p.text.items) }
{
    let mut text = Vec::new(alloc);
    match first {
        None => {
            push_quiet(&mut text)?;
            Ok(Page { status: 0, text })
        }
        Some(first) => {
            let picture = picture_of(alloc, kept, first)?;
            let names = names_of(alloc, input)?;
            push_picture(alloc, &mut text, &names, &first.explanation, &picture)?;
            Ok(Page { status: 6, text })
        }
    }
}

/// What a trace text is answered: the picture of its first race, with the names that the text gives, or its first fault.
pub fn picture_page(alloc: Global, input: &[u8], cuts: &Cuts) -> Result<Page, AllocError>
    ensures { IfOk result (λ p. PicturesText input.now p.status p.text.items) }
{
    match first_race(alloc, input, cuts)? {
        Sought::Refused { line, kind } => refused(alloc, line, kind),
        Sought::Judged { kept, first } => page(alloc, input, &kept, &first),
    }
}
