// The words of an event's cell.
ghost use Rattle.std.specs.Prelude.{◌≡◌, ◌<◌, ◌^◌};
ghost use Rattle.gl_model.specs.declared.event.Event.TheVariants.{Act as Does, Commit as Commits};
ghost use Rattle.gl_model.specs.declared.limits.TheConstants.{THREADS};
ghost use Rattle.gl_rule.specs.Cells.{act_word as word_of_act, behind_four, four_in, packed};

use gl_model::{Act, VarSet};

fn act_word(act: &Act) -> u64
    ensures { (result ≡ word_of_act act.now) × (result < 2 ^ 40) }
{
    match *act {
        Act::Begin(f) => 1 + 65536 * f as u64,
        Act::End => 2,
        Act::Acq(o) => 3 + 65536 * o as u64,
        Act::Rel(o) => 4 + 65536 * o as u64,
        Act::VRead(x) => 5 + 65536 * x as u64,
        Act::VWrite(x) => 6 + 65536 * x as u64,
        Act::Fork { child, func } => 7 + 65536 * (child as u64 + 16 * func as u64),
        Act::Join(u) => 8 + 65536 * u as u64,
        Act::Alloc(c) => 9 + 65536 * c as u64,
        Act::Print => 10,
        Act::Input => 11,
        Act::Fail(k) => 13 + 65536 * k as u64,
    }
}

// The five words of an act.
pub(crate) fn pack(thread: u8, act: &Act) -> [u64; 5]
    requires { thread < THREADS }
    ensures { result ≡ packed (record { thread = thread; event = Does act.now }) }
{
    [act_word(act) + 256 * thread as u64, 0, 0, 0, 0]
}

// Four ids in a word, the first lowest.
fn four(ids: &[u16]) -> u64
    ensures { result ≡ four_in ids.now }
{
    match ids {
        [] => 0,
        [a] => *a as u64,
        [a, b] => *a as u64 + 65536 * *b as u64,
        [a, b, c] => *a as u64 + 65536 * *b as u64 + 4294967296 * *c as u64,
        [a, b, c, d, ..] => {
            *a as u64 + 65536 * *b as u64 + 4294967296 * *c as u64 + 281474976710656 * *d as u64
        }
    }
}

// The ids behind the first four.
fn behind(ids: &[u16]) -> &[u16]
    ensures { result.now ≡ behind_four ids.now }
{
    match ids {
        [_, _, _, _, rest @ ..] => rest,
        _ => &[],
    }
}

// The five words of a commit on these variables.
pub(crate) fn pack_commit(thread: u8, vars: &VarSet) -> [u64; 5]
    requires { thread < THREADS }
    ensures { result ≡ packed (record { thread = thread; event = Commits vars.now }) }
{
    vars.keeps();
    let first = vars.ids();
    let second = behind(first);
    let third = behind(second);
    let head = 12 + 256 * thread as u64 + 4294967296 * first.len() as u64;
    [
        head,
        four(first),
        four(second),
        four(third),
        four(behind(third)),
    ]
}
