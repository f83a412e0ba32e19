use crate::{Assembled, assemble, list};
use gl_text::TextError;
use std::alloc::{AllocError, Global};
use std::process::Abort;
use std::test::Fail;

// Texts, `;` for the end of a line, each with `ok` or the line and the kind of its first fault.
const TEXTS: &str = "func main 0 0;  push 5;  print;  halt => ok
func main 0 0 => 1 46
# nothing => 0 48
func main 0 0;txbegin;halt => ok
func main 0 0;pop;halt => 1 45
func main 0 0;jump a;halt => 2 8
func main 0 0;push 9223372036854775808;halt => 2 6
func main 0 0;push 9223372036854775807;halt => ok
func main 0 0;push -9223372036854775808;halt => ok
func main 0 0;push -9223372036854775809;halt => 2 6
func main 0 0;push;halt => 2 5
func main 0 0;push 1 2;halt => 2 5
func main 0 0;push x;halt => 2 6
func main 0 0;push +1;halt => 2 6
func main 0 0;push -0;halt => ok
func main 0 0;push 0004;halt => ok
func main 0 0;hlt => 2 4
hlt => 1 4
halt => 1 10
a: => 1 10
catch a b c => 1 10
input 5 => 0 48
input 5;func main 0 0;halt => 2 10
func main 0 0;halt;input 5;halt => 4 10
func main 0 0;halt;input 5;hlt => 4 10
func main 0 0;halt;input 5;input 6 -7 => ok
func main 0 0;halt;input x => 3 6
func main 0 0;halt;input 5;input => 4 10
func main 0 0;input;print;halt => ok
func main 0 0;halt;class C 1 0 => 3 10
class C 1 0;func main 0 0;halt => ok
class C 1;func main 0 0;halt => 1 5
class C 1025 0;func main 0 0;halt => 1 6
class C 1024 256;func main 0 0;halt => ok
class C 0 257;func main 0 0;halt => 1 6
class 1C 0 0;func main 0 0;halt => 1 11
class C 0 0;class C 0 0;func main 0 0;halt => 2 7
class C 0 0;func C 0 0;halt;func main 0 0;C:;halt => ok
func main 0 0;halt;func main 0 0;halt => 3 7
func main 0 33;halt => 1 6
func main 1 1;halt => 0 48
func main 3 1;halt => 0 48
func f 3 1;halt;func main 0 0;halt => 0 47
func f 0 0;halt => 0 48
func main 0 0;a:;a:;halt => 3 7
func main 0 0;a:;halt;func f 0 0;a:;halt => ok
func main 0 0;jump a;halt;func f 0 0;a:;halt => 2 8
func main 0 0;a: nop;halt => 2 4
func main 0 0;:;halt => 2 11
func main 0 0;1a:;halt => 2 11
func main 0 0;jump a;a: => 2 41
func main 0 0;jump a;a:;halt => ok
func main 0 0;call f;halt => 2 8
func main 0 0;new C;halt => 2 8
func main 0 0;new C;halt;class C 0 0 => 4 10
func main 0 0;load 0;halt => 2 44
func main 0 1;load 0;halt => ok
func main 0 1;load 65536;halt => 2 6
func main 0 1;load 65535;halt => 2 44
func main 0 0;throw 99 => 2 6
func main 0 0;throw 100 => ok
func main 0 0;throw 200 => 2 6
func main 0 0;nop => 2 46
func main 0 0;nop;catch a b c;halt => 3 8
func main 0 0;a:;nop;b:;halt;h:;halt;catch a b h => ok
func main 0 0;a:;nop;b:;halt;h:;halt;catch b a h => 8 41
func main 0 0;halt;fork f => 3 8
func main 0 0;push 0;fork main;halt => 3 42
func main 0 0;push 0;fork f;join;halt;func f 1 1;load 0;ret => ok
fork f => 1 10
func main 0 0;commit x => 2 5
func main 0 0;halt x => 2 5
func main 0;halt => 1 5
func;halt => 1 5
func 9x 0 0;halt => 1 11
func main 0 0;abcdefghijklmnopqrstuvwxyzabcdef:;halt => ok
func main 0 0;abcdefghijklmnopqrstuvwxyzabcdefg:;halt => 2 11
func main 0 0;jump 5x;halt => 2 8
func main 0 1;inc 0 -1;halt => ok
func main 0 1;inc 0;halt => 2 5
func main 0 1;inc x -1;halt => 2 6
func main 0 0;halt;# a comment;;  ;nop => 6 46
func main 0 0;call main;ret => ok
func main 0 0;call f;halt;func f 1 1;load 0;ret => 1 45
func main 0 0;jump;halt => 2 5";

// The bytes of a text, with `;` for the end of a line.
fn with_lines(alloc: Global, text: &str) -> Result<Vec<u8>, AllocError> {
    let mut bytes = Vec::new(alloc);
    for byte in text.as_bytes() {
        bytes.push(if *byte == b';' { b'\n' } else { *byte })?;
    }
    Ok(bytes)
}

// What is said of a text: `ok`, or a line and a kind.
fn told(alloc: Global, answer: Result<Assembled, TextError>) -> Result<String, AllocError> {
    match answer {
        Ok(_) => String::from_str(alloc, "ok"),
        Err(TextError::Memory(error)) => Err(error),
        Err(TextError::Fault(fault)) => {
            let line = fault.line;
            let kind = fault.kind;
            format!(in alloc; "{line} {kind}")
        }
    }
}

fn answer(alloc: Global, bytes: &[u8]) -> Result<String, AllocError> {
    told(alloc, assemble(alloc, bytes))
}

fn answers(rt: &impl Abort, alloc: Global, case: &str) -> Result<(), Fail> {
    let (text, wanted) = case.split_once(" => ").ok_or("a case has no answer")?;
    let bytes = with_lines(alloc, text)?;
    let given = answer(alloc, &bytes)?;
    assert_eq!(rt; given.as_str(), wanted, "{text}");
    Ok(())
}

#[test]
fn texts(rt: HostRuntime) -> Result<(), Fail> {
    for case in TEXTS.lines() {
        answers(&rt, rt.alloc(), case)?;
    }
    Ok(())
}

// Programs, `;` for the end of a line, in the form of their listings.
const LISTINGS: &str = "func main 0 0;  push 5;  print;  halt;
class c0 1 2;class c1 0 0;func f0 1 2;L0:;  load 0;  inc 1 -7;  jnz L0;  push 3;  ret;func main 0 1;L0:;  new c1;  store 0;L2:;  push 1;  call f0;  pop;  halt;L6:;  throw 199;  catch L0 L2 L6;
func main 0 0;  jump L1;L1:;  nop;L2:;  halt;L3:;  print;  halt;L5:;  catch L2 L5 L3;
func f0 1 1;  txbegin;  commit;  load 0;  ret;func main 0 0;  push 7;  fork f0;  join;  halt;";

fn lists(rt: &impl Abort, alloc: Global, text: &str) -> Result<(), Fail> {
    let bytes = with_lines(alloc, text)?;
    match assemble(alloc, &bytes) {
        Ok(assembled) => {
            let listed = list(alloc, &assembled.program)?;
            assert!(rt; listed.as_slice() == bytes.as_slice(), "{text}");
            Ok(())
        }
        Err(_) => Err(Fail::from("a listing is refused")),
    }
}

#[test]
fn listings(rt: HostRuntime) -> Result<(), Fail> {
    for text in LISTINGS.lines() {
        lists(&rt, rt.alloc(), text)?;
    }
    Ok(())
}

// A program of forty lines.
const FORTY: &str =
    "# forty lines;class C 2 1;class D 0 0;func add 2 2;load 0;load 1;add;ret;func main 0 3;new C;store 0;push 10;store 1;again:;load 0;load 0;get 1;load 1;call add;put 1;inc 1 -1;load 1;jnz again;from:;load 0;vget 0;print;to:;push 1;push 0;div;print;halt;handler:;print;halt;end:;catch to handler handler;input 1 2 -3;input 4";

// Each beginning of it is a text or has a fault.
#[test]
fn beginnings(rt: HostRuntime) -> Result<(), Fail> {
    let bytes = with_lines(rt.alloc(), FORTY)?;
    for end in 0..bytes.len() {
        answer(rt.alloc(), &bytes[..end])?;
    }
    assert_eq!(rt; answer(rt.alloc(), &bytes)?.as_str(), "ok");
    Ok(())
}

#[test]
fn limits(rt: HostRuntime) -> Result<(), Fail> {
    let mut functions = String::new(rt.alloc());
    for f in 0..65u8 {
        writeln!(functions, "func f{f} 0 0\nhalt")?;
    }
    assert_eq!(rt;
        answer(rt.alloc(), functions.as_bytes())?.as_str(),
        "129 12"
    );
    let long = vec![in rt.alloc(); b'\n'; 1_048_577]?;
    assert_eq!(rt; answer(rt.alloc(), &long)?.as_str(), "0 1");
    assert_eq!(rt;
        answer(rt.alloc(), b"func main 0 0\nnop\0\n")?.as_str(),
        "2 2"
    );
    assert_eq!(rt;
        answer(rt.alloc(), b"func main 0 0\r\nhalt\r\n")?.as_str(),
        "ok"
    );
    Ok(())
}
