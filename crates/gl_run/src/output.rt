// The texts that are written, but for those of the commands.
ghost use Rattle.std.specs.Prelude.{◌≡◌, IfOk, string_bytes};
ghost use Rattle.gl_run.specs.Output.{refusal, usage};

use std::alloc::{AllocError, Global};

/// The line of a refused text.
pub fn refusal(alloc: Global, line: u32, kind: u8) -> Result<String, AllocError>
    ensures { IfOk result (λ t. string_bytes t ≡ refusal line kind) }
{
    format!(in alloc; "refused {line} {kind}\n")
}

/// The line for words that are no command.
pub fn usage(alloc: Global) -> Result<String, AllocError>
    ensures { IfOk result (λ t. string_bytes t ≡ usage) }
{
    String::from_str(alloc, "usage: goldi check|list|run|load|audit\n")
}
