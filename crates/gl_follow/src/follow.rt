ghost use Rattle.std.specs.Prelude.{◌≡◌, ◌≤◌, IfOk, MatchBool, MatchOption, map};
ghost use Rattle.gl_model.specs.Entries.{seen};
ghost use Rattle.gl_model.specs.declared.limits.TheConstants.{TX_VARIABLES};
ghost use Rattle.gl_bytecode.specs.Runs.{Runs, touched};
ghost use Rattle.gl_follow.specs.Beginnings.{ProgramFails};
ghost use Rattle.gl_follow.specs.Following.{EachBeginsRight, Stops};
ghost use Rattle.gl_follow.specs.Steps.{CanGo, EndsAt, EndsWithOver, IsWhole, Turns};

use crate::replay::Replay;
use gl_bytecode::Program;
use gl_model::Entry;
use std::alloc::{AllocError, Global};

// Makes one exchange, where one is left, and tells how many entries of the list it took.
fn turn(replay: &mut Replay, program: &Program, rest: &[Entry]) -> Option<usize>
    requires can { CanGo program.now replay.old }
    requires right { EachBeginsRight program.now (map seen rest.now) }
    ensures few { touched replay.old ≤ TX_VARIABLES }
    ensures turned { MatchOption result (Stops program.now replay.old (map seen rest.now)) (Turns program.now replay.old (map seen rest.now) replay.new) }
    ensures same { MatchOption result (replay.new ≡ replay.old) (λ n. n ≡ n) }
    ensures can { CanGo program.now replay.new }
{
    replay.keeps();
    if replay.goes_quietly(program, rest) {
        return Some(0);
    }
    match rest.first() {
        Some(entry) => {
            if replay.passes(program, entry) {
                Some(1)
            } else {
                None
            }
        }
        None => None,
    }
}

// Drives a machine by the list of its thread, as far as that goes.
fn follow(
    alloc: Global,
    program: &Program,
    thread: u8,
    steps: u32,
    list: &[Entry],
) -> Result<(Replay, usize), AllocError>
    requires right { EachBeginsRight program.now (map seen list.now) }
    ensures { IfOk result (λ r. EndsAt program.now steps thread (map seen list.now) r.0 r.1) }
{
    let mut replay = Replay::new(alloc, program, thread, steps)?;
    let mut place = 0;
    while let Some(used) = turn(&mut replay, program, list.split_at(place).1) {
        place += used;
    }
    replay.keeps();
    Ok((replay, place))
}

// Is an Over left, and did the machine end so?
fn is_whole(replay: &Replay, rest: &[Entry]) -> bool
    ensures { MatchBool result (IsWhole replay.now (map seen rest.now)) (IsWhole replay.now (map seen rest.now) → ⊥) }
{
    match rest.first() {
        Some(Entry::Over(ending)) => replay.is_over(*ending),
        _ => false,
    }
}

// Where the list of the thread is not what its machine makes: at the length of its longest beginning that the machine makes.
pub(crate) fn list_fault(
    alloc: Global,
    program: &Program,
    thread: u8,
    steps: u32,
    list: &[Entry],
) -> Result<Option<usize>, AllocError>
    requires right { EachBeginsRight program.now (map seen list.now) }
    requires over { EndsWithOver (map seen list.now) }
    ensures { IfOk result (λ r. MatchOption r (Runs program.now steps thread (map seen list.now)) (ProgramFails program.now steps thread (map seen list.now))) }
{
    let (replay, place) = follow(alloc, program, thread, steps, list)?;
    if is_whole(&replay, list.split_at(place).1) {
        Ok(None)
    } else {
        Ok(Some(place))
    }
}
