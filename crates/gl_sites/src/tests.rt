use crate::{SourceLine, line_of};
use gl_asm::assemble;
use std::process::Abort;
use std::test::Fail;

// Two functions, with labels, a catch, comments, an empty line, a tab, and blanks at the ends of lines.
const TEXT: &str = "# two functions
class Cell 1 0

func main 0 1
\tnew Cell   # the cell
  store 0
from:
  load 0
  push 0
  div
to:
  print
  halt
handler:
  pop
  halt
catch from to handler
func work 1 1
again:
  load 0  
  jnz again # goes on
  push 7
  ret
input 5
";

// A line with its number, its function and its text.
fn told(number: u32, function: &'static str, text: &'static str) -> Option<SourceLine<'static>> {
    Some(SourceLine {
        number,
        text: text.as_bytes(),
        function: function.as_bytes(),
    })
}

#[test]
fn lines_of_two_functions(rt: HostRuntime) -> Result<(), Fail> {
    let text = TEXT.as_bytes();
    assert!(&rt; assemble(rt.alloc(), text).is_ok());
    assert_eq!(&rt; line_of(text, 0, 0), told(5, "main", "new Cell"));
    assert_eq!(&rt; line_of(text, 0, 2), told(8, "main", "load 0"));
    assert_eq!(&rt; line_of(text, 0, 8), told(16, "main", "halt"));
    assert_eq!(&rt; line_of(text, 0, 9), None);
    assert_eq!(&rt; line_of(text, 1, 0), told(20, "work", "load 0"));
    assert_eq!(&rt; line_of(text, 1, 1), told(21, "work", "jnz again"));
    assert_eq!(&rt; line_of(text, 1, 3), told(23, "work", "ret"));
    assert_eq!(&rt; line_of(text, 1, 4), None);
    assert_eq!(&rt; line_of(text, 2, 0), None);
    Ok(())
}
