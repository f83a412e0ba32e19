// The text of the program in the text of an audit.
ghost use Rattle.std.specs.Prelude.{◌<◌, length};
ghost use Rattle.gl_audited.specs.Cut.{IsProgramText};

use crate::cut::{cut_text, parts_at};

/// The text of the program in the text of an audit: what stands before the first line whose first word is `record`.
pub fn program_text(text: &[u8]) -> &[u8]
    requires { length text.now < u32.MAX }
    ensures { IsProgramText text.now result.now }
{
    parts_at(text, cut_text(text).at).0
}
