ghost use Rattle.std.specs.Prelude.{◌≡◌, map};
ghost use Rattle.gl_model.specs.Entries.{seen};
ghost use Rattle.gl_bytecode.specs.Forced.{looks_of, word_ahead};
ghost use Rattle.gl_bytecode.specs.Runs.{reply_of_act, reply_of_plain, when, word_of};

use gl_bytecode::{Ask, BAD_THREAD, HEAP_FULL, INPUT_END, NOT_OWNER, RACE, Reply, THREADS_FULL};
use gl_model::{Act, Entry, Tx};

// A reply, where a test holds.
fn when(holds: bool, reply: Reply) -> Option<Reply>
    ensures { result ≡ when holds reply }
{
    if holds { Some(reply) } else { None }
}

// The reply of an event with this value to the ask, if it answers it.
pub(crate) fn by_act(ask: Ask, act: Act, value: i64) -> Option<Reply>
    ensures { result ≡ reply_of_act ask act value }
{
    match act {
        Act::Begin(func) => match ask {
            Ask::Begin => Some(Reply::Start { func, value }),
            _ => None,
        },
        Act::End => match ask {
            Ask::End => Some(Reply::Go),
            _ => None,
        },
        Act::VRead(read) => match ask {
            Ask::VRead { field } => when(field == read, Reply::Value(value)),
            _ => None,
        },
        Act::VWrite(written) => match ask {
            Ask::VWrite { field, value: word } => when(
                field == written && word == value,
                Reply::Go,
            ),
            _ => None,
        },
        Act::Acq(entered) => match ask {
            Ask::Enter { monitor } => when(monitor == entered, Reply::Go),
            _ => None,
        },
        Act::Rel(left) => match ask {
            Ask::Exit { monitor } => when(monitor == left, Reply::Go),
            _ => None,
        },
        Act::Fork { child, func } => by_fork(ask, child, func, value),
        Act::Join(joined) => match ask {
            Ask::Join { thread } => when(thread == joined, Reply::Go),
            _ => None,
        },
        Act::Alloc(made) => match ask {
            Ask::Alloc { class } => when(class == made, Reply::Value(value)),
            _ => None,
        },
        Act::Print => match ask {
            Ask::Print { value: word } => when(word == value, Reply::Go),
            _ => None,
        },
        Act::Input => match ask {
            Ask::Input => Some(Reply::Value(value)),
            _ => None,
        },
        Act::Fail(code) => by_refusal(ask, code, value),
    }
}

// The reply of a thread's start.
fn by_fork(ask: Ask, child: u8, forked: u16, value: i64) -> Option<Reply>
    ensures { result ≡ reply_of_act ask (Act.Fork child forked) value }
{
    match ask {
        Ask::Fork { func, value: word } => {
            when(func == forked && word == value, Reply::Value(child as i64))
        }
        _ => None,
    }
}

// The reply of a refusal with this code: it is one of what was asked.
fn by_refusal(ask: Ask, code: u8, value: i64) -> Option<Reply>
    ensures { result ≡ reply_of_act ask (Act.Fail code) value }
{
    match ask {
        Ask::Exit { monitor } => when(
            code == NOT_OWNER && monitor as i64 == value,
            Reply::Raise(NOT_OWNER),
        ),
        Ask::Alloc { class } => when(
            code == HEAP_FULL && class as i64 == value,
            Reply::Raise(HEAP_FULL),
        ),
        Ask::Fork { .. } => when(
            code == THREADS_FULL && 0 == value,
            Reply::Raise(THREADS_FULL),
        ),
        Ask::Join { thread } => when(
            code == BAD_THREAD && thread as i64 == value,
            Reply::Raise(BAD_THREAD),
        ),
        Ask::Input => when(code == INPUT_END && 0 == value, Reply::Raise(INPUT_END)),
        _ => None,
    }
}

// The reply of a plain access to the ask, if it answers it.
pub(crate) fn by_plain(ask: Ask, var: u16, write: bool, value: i64, raised: bool) -> Option<Reply>
    ensures { result ≡ reply_of_plain ask var write value raised }
{
    match ask {
        Ask::Read { var: asked } => {
            let reply = if raised {
                Reply::Raise(RACE)
            } else {
                Reply::Value(value)
            };
            when(asked == var && !write, reply)
        }
        Ask::Write {
            var: asked,
            value: word,
        } => {
            let reply = if raised {
                Reply::Raise(RACE)
            } else {
                Reply::Go
            };
            when(asked == var && write && word == value, reply)
        }
        _ => None,
    }
}

// What the next commit or abort among these entries looked at in the variable. An attempt looks at a variable once, and sixteen times at
// most, and no entry but its end stands between it and that; so a list is passed through some sixteen times, however long it is.
pub(crate) fn word_ahead(list: &[Entry], var: u16) -> Option<i64>
    ensures { result ≡ word_ahead (map seen list.now) var }
{
    for entry in list {
        match entry {
            Entry::Commit { tx, .. } | Entry::Abort { tx, .. } => {
                return looked_at(tx, var);
            }
            Entry::Sync { .. } | Entry::Plain { .. } | Entry::Trim { .. } | Entry::Over(_) => {}
        }
    }
    None
}

// What the attempt looked at in the variable.
fn looked_at(tx: &Tx, var: u16) -> Option<i64>
    ensures { result ≡ word_of (looks_of tx.now) var }
{
    match tx.looks.of(var) {
        Some(look) => Some(look.value),
        None => None,
    }
}
