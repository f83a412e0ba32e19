// The page of a record that is not lawful.
ghost use Rattle.std.specs.Prelude.{◌≡◌, IfOk};
ghost use Rattle.gl_pages.specs.Answers.{finding_line};

use gl_explain::Page;
use std::alloc::{AllocError, Global};

/// The page of a record that is not lawful.
pub(crate) fn not_lawful(
    alloc: Global,
    thread: u8,
    index: u64,
    clause: u8,
) -> Result<Page, AllocError>
    ensures status { IfOk result (λ p. p.status ≡ 8) }
    ensures text { IfOk result (λ p. p.text.items ≡ finding_line thread index clause) }
{
    let text = format!(in alloc; "not {thread} {index} {clause}\n")?;
    Ok(Page {
        status: 8,
        text: text.into_bytes(),
    })
}
