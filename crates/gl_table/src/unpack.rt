// The event that the words of a cell stand for.
ghost use Rattle.std.specs.Prelude.{◌≡◌, ℕ, ◌<◌, List, length};
ghost use Rattle.gl_model.specs.declared.event.Stamp.{Stamp as AStamp};
ghost use Rattle.gl_model.specs.Elements.{IsStampInRange};
ghost use Rattle.gl_rule.specs.Cells.{packed, HasSmallCode};
ghost use Rattle.gl_table.specs.Unpacking.{act_at, id_in, HaveIds};

use gl_model::{Act, Event, Stamp, VarSet};

fn act_of(kind: u64, arg: u64) -> Act
    requires { arg < 65536 }
    ensures { result ≡ act_at kind arg }
{
    match kind {
        1 => Act::Begin(arg as u16),
        2 => Act::End,
        3 => Act::Acq(arg as u16),
        4 => Act::Rel(arg as u16),
        5 => Act::VRead(arg as u16),
        6 => Act::VWrite(arg as u16),
        7 => Act::Fork {
            child: (arg % 16) as u8,
            func: (arg / 16) as u16,
        },
        8 => Act::Join((arg % 256) as u8),
        9 => Act::Alloc(arg as u16),
        10 => Act::Print,
        11 => Act::Input,
        _ => Act::Fail((arg % 256) as u8),
    }
}

// The id at place j of a commit.
fn id_at(words: &[u64], j: u64) -> u16
    requires { (length words.now ≡ 5) × (j < 16) }
    ensures { result ≡ id_in words.now j }
{
    let word = words[1 + (j / 4) as usize];
    match j % 4 {
        0 => (word % 65536) as u16,
        1 => (word / 65536 % 65536) as u16,
        2 => (word / 4294967296 % 65536) as u16,
        _ => (word / 281474976710656 % 65536) as u16,
    }
}

// The variables of a commit.
fn vars_of(words: &[u64], count: u64) -> VarSet
    requires five { length words.now ≡ 5 }
    requires ids { (xs : List ℕ) × HaveIds words.now xs × (count ≡ length xs) }
    ensures { (xs : List ℕ) → HaveIds words.now xs → count ≡ length xs → result ≡ xs }
{
    let mut vars = VarSet::empty();
    for j in 0..count {
        let Ok(()) = vars.insert(id_at(words, j)) else {
            unreachable!()
        };
    }
    vars
}

// The event of these five words.
pub(crate) fn unpack(words: &[u64]) -> Stamp
    requires five { length words.now ≡ 5 }
    requires stands { (x : AStamp) × IsStampInRange x × HasSmallCode x × (words.now ≡ packed x) }
    ensures { (x : AStamp) → IsStampInRange x → HasSmallCode x → words.now ≡ packed x → result ≡ x }
{
    let head = words[0];
    let thread = (head / 256 % 256) as u8;
    if head % 256 == 12 {
        let vars = vars_of(words, head / 4294967296);
        return Stamp {
            thread,
            event: Event::Commit(vars),
        };
    }
    Stamp {
        thread,
        event: Event::Act(act_of(head % 256, head / 65536 % 65536)),
    }
}
