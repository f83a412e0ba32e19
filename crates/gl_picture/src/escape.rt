// Text in the drawing.
ghost use Rattle.std.specs.Prelude.{◌≡◌, ◌++◌, OnOk};
ghost use Rattle.std.specs.Fmt.{decimal};
ghost use Rattle.gl_picture.specs.Shapes.{escape, escape_byte};

use itoa::Buffer;
use std::alloc::AllocError;

/// Adds a text as it is.
pub fn push(out: &mut Vec<u8>, text: &str) -> Result<(), AllocError>
    ensures { OnOk result (out.new.items ≡ out.old.items ++ text.now) }
{
    out.extend_from_slice(text.as_bytes())
}

/// Adds a number.
pub fn push_number(out: &mut Vec<u8>, number: u32) -> Result<(), AllocError>
    ensures { OnOk result (out.new.items ≡ out.old.items ++ decimal number) }
{
    push(out, Buffer::new().format(number))
}

fn push_byte(out: &mut Vec<u8>, byte: u8) -> Result<(), AllocError>
    ensures { OnOk result (out.new.items ≡ out.old.items ++ escape_byte byte) }
{
    match byte {
        b'&' => push(out, "&amp;"),
        b'<' => push(out, "&lt;"),
        b'>' => push(out, "&gt;"),
        b'"' => push(out, "&quot;"),
        b'\'' => push(out, "&apos;"),
        _ => {
            out.push(byte)?;
            Ok(())
        }
    }
}

/// Adds a text, with what has a meaning in SVG escaped.
pub fn push_escaped(out: &mut Vec<u8>, bytes: &[u8]) -> Result<(), AllocError>
    ensures { OnOk result (out.new.items ≡ out.old.items ++ escape bytes.now) }
{
    for byte in bytes {
        push_byte(out, *byte)?;
    }
    Ok(())
}
