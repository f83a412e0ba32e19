// Whether an entry of a thread is a step of the machine; if it is one, the coded state makes it.
ghost use Rattle.std.specs.Prelude.{◌≡◌, ℕ, pos, ◌<◌, List};
ghost use Rattle.gl_acts.specs.Applying.{act_by, Applies, AreShallow, commit_by};
ghost use Rattle.gl_acts.specs.Making.{AppliesEntry};
ghost use Rattle.gl_bytecode.specs.Lawful.{setting_of};
ghost use Rattle.gl_model.specs.declared.limits.TheConstants.{THREADS};
ghost use Rattle.gl_model.specs.Elements.{IsActInRange};
ghost use Rattle.gl_model.specs.Entries.{seen};
ghost use Rattle.gl_model.specs.Kept.{IsEntryKept};
ghost use Rattle.gl_model.specs.Machine.{Setting};
ghost use Rattle.gl_state.specs.declared.state.Stage.TheVariants as stage;
ghost use Rattle.gl_state.specs.Acts.{stage_of};

use crate::changes::{By, acquire, end, fork, make, read, release, take, write};
use crate::refusals::{fail, join};
use gl_bytecode::Program;
use gl_model::{Act, Entry, Inputs};
use gl_state::{ListState, Stage};

// The act of a thread that runs.
fn apply_running(
    program: &Program,
    inputs: &Inputs,
    state: &mut ListState,
    by: By,
    act: Act,
) -> bool
    requires there { by.thread < THREADS }
    requires range { IsActInRange act }
    requires shallow { AreShallow state.old }
    requires runs { stage_of state.old by.thread ≡ stage.Running }
    ensures { Applies (setting_of program.now inputs.now) (act_by by.thread act) by.value state.old state.new result }
{
    match act {
        Act::Begin(_) => false,
        Act::End => end(state, by),
        Act::Acq(monitor) => acquire(state, by, monitor),
        Act::Rel(monitor) => release(state, by, monitor),
        Act::VRead(field) => read(state, by, field),
        Act::VWrite(field) => write(state, by, field),
        Act::Fork { child, func } => fork(program, state, by, child, func),
        Act::Join(other) => join(state, by, other),
        Act::Alloc(class) => make(program, state, by, class),
        Act::Print => true,
        Act::Input => take(inputs, state, by),
        Act::Fail(code) => fail(program, inputs, state, by, code),
    }
}

// The thread, which was forked with this function and argument, begins.
fn begin(state: &mut ListState, by: By, act: Act, func: u16, argument: i64) -> bool
    requires there { by.thread < THREADS }
    requires forked { stage_of state.old by.thread ≡ stage.Forked func argument }
    ensures { (setting : Setting) → Applies setting (act_by by.thread act) by.value state.old state.new result }
{
    if act != Act::Begin(func) || argument != by.value {
        return false;
    }
    state.begin(by.thread);
    true
}

/// The act of a thread, with the value that its entry carries.
pub(crate) fn apply(
    program: &Program,
    inputs: &Inputs,
    state: &mut ListState,
    by: By,
    act: Act,
) -> bool
    requires there { by.thread < THREADS }
    requires range { IsActInRange act }
    requires shallow { AreShallow state.old }
    ensures { Applies (setting_of program.now inputs.now) (act_by by.thread act) by.value state.old state.new result }
{
    match state.stage(by.thread) {
        Stage::Never | Stage::Ended => false,
        Stage::Forked { func, value } => begin(state, by, act, func, value),
        Stage::Running => apply_running(program, inputs, state, by, act),
    }
}

// A thread may commit while it runs; the state stays.
fn commit(state: &ListState, thread: u8) -> bool
    requires there { thread < THREADS }
    ensures { (setting : Setting) (xs : List ℕ) → Applies setting (commit_by thread xs) (pos 0) state.now state.now result }
{
    match state.stage(thread) {
        Stage::Running => true,
        Stage::Never | Stage::Forked { .. } | Stage::Ended => false,
    }
}

/// The event that an entry of a thread is.
pub(crate) fn apply_entry(
    program: &Program,
    inputs: &Inputs,
    state: &mut ListState,
    thread: u8,
    entry: &Entry,
) -> bool
    requires there { thread < THREADS }
    requires kept { IsEntryKept (seen entry.now) }
    requires shallow { AreShallow state.old }
    ensures { AppliesEntry (setting_of program.now inputs.now) thread (seen entry.now) state.old state.new result }
{
    match entry {
        Entry::Sync { act, value, .. } => {
            let by = By {
                thread,
                value: *value,
            };
            apply(program, inputs, state, by, *act)
        }
        Entry::Commit { .. } => commit(state, thread),
        Entry::Plain { .. } | Entry::Abort { .. } | Entry::Trim { .. } | Entry::Over(_) => false,
    }
}
