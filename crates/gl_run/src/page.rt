ghost use Rattle.std.specs.Prelude.{◌≡◌, IfOk, None};
ghost use Rattle.gl_run.specs.Output.{refusal};

use crate::kept::Kept;
use crate::output::refusal;
use crate::status::REFUSED;
use std::alloc::{AllocError, Global};

// A status and the text to be written, or why there is none.
#[derive(Drop)]
pub struct Page {
    pub status: u8,
    pub text: Vec<u8>,
    pub kept: Option<Kept>,
}

/// Why there is nothing to write.
#[derive(Clone, Copy, Debug, PartialEq, Eq)]
pub enum Stop {
    Read,
    Memory,
}

// The page of a refused text.
pub fn refused(alloc: Global, line: u32, kind: u8) -> Result<Page, AllocError>
    ensures status { IfOk result (λ p. p.status ≡ REFUSED) }
    ensures text { IfOk result (λ p. p.text.items ≡ refusal line kind) }
    ensures kept { IfOk result (λ p. p.kept ≡ None) }
{
    Ok(Page {
        status: REFUSED,
        text: refusal(alloc, line, kind)?.into_bytes(),
        kept: None,
    })
}
