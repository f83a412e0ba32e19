// What an event call answers.
ghost use Rattle.std.specs.Prelude.{◌≡◌};
ghost use Rattle.gl_events.specs.Calls.{done_of};

use gl_model::Act;

/// What was published: its position, the value that the call answers, the function that a thread begins with, and the code of a failure.
/// What a call does not answer is 0.
#[derive(Clone, Copy)]
pub struct Done {
    pub at: u64,
    pub value: i64,
    pub func: u16,
    pub code: u8,
}

/// Why an event call did nothing. `Busy`: another pass, `by`, held the list's turn. `Blocked`: `owner` is in the monitor. `NotEnded`: the
/// thread that is joined was forked and has not ended. `NotForked`: this thread was not forked; `live` threads were forked and have not
/// ended. `RingFull`: there is no room for an event at `tail` where the ring begins with the segment `low`.
#[derive(Clone, Copy)]
pub enum Stop {
    Busy { by: u8 },
    Blocked { owner: u8 },
    NotEnded { thread: u8 },
    NotForked { live: u8 },
    RingFull { low: u64, tail: u64 },
}

// What a call answers that published the act with this value.
pub(crate) fn answer(at: u64, act: &Act, value: i64) -> Done
    ensures { result ≡ done_of at act.now value }
{
    let none = Done {
        at,
        value: 0,
        func: 0,
        code: 0,
    };
    match *act {
        Act::Begin(func) => Done {
            at,
            value,
            func,
            code: 0,
        },
        Act::VRead(_) | Act::Alloc(_) | Act::Input => Done {
            at,
            value,
            func: 0,
            code: 0,
        },
        Act::Fork { child, func: _ } => Done {
            at,
            value: child as i64,
            func: 0,
            code: 0,
        },
        Act::Fail(code) => Done {
            at,
            value: 0,
            func: 0,
            code,
        },
        Act::End | Act::Acq(_) | Act::Rel(_) | Act::VWrite(_) | Act::Join(_) | Act::Print => none,
    }
}
