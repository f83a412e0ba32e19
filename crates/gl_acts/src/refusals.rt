// What a running thread does that leaves the state as it is: it joins a thread that has ended, or it is refused what it asked for.
ghost use Rattle.std.specs.Prelude.{◌≡◌, ℕ, ℤ, pos, ◌<◌, IfSome, List, None};
ghost use Rattle.gl_acts.specs.Applying.{act_by, Applies, Tells};
ghost use Rattle.gl_acts.specs.Refusing.{IsFull, IsNotOwner, IsUnforked};
ghost use Rattle.gl_bytecode.specs.Lawful.{setting_of};
ghost use Rattle.gl_model.specs.declared.event.Act.TheVariants as act;
ghost use Rattle.gl_model.specs.declared.limits.TheConstants.{THREADS};
ghost use Rattle.gl_model.specs.Machine.{Setting};
ghost use Rattle.gl_state.specs.declared.state.Stage.TheVariants as stage;
ghost use Rattle.gl_state.specs.Acts.{stage_of};

use crate::changes::By;
use gl_bytecode::{BAD_THREAD, HEAP_FULL, INPUT_END, NOT_OWNER, Program, THREADS_FULL};
use gl_model::{CLASSES, Inputs, MONITORS, THREADS};
use gl_state::{ListState, Stage};

// The thread is in this stage.
fn has_ended(found: Stage) -> bool
    ensures { Tells result (found ≡ stage.Ended) }
{
    match found {
        Stage::Ended => true,
        Stage::Never | Stage::Forked { .. } | Stage::Running => false,
    }
}

// The thread was never forked.
fn is_new(found: Stage) -> bool
    ensures { Tells result (found ≡ stage.Never) }
{
    match found {
        Stage::Never => true,
        Stage::Forked { .. } | Stage::Running | Stage::Ended => false,
    }
}

/// The thread joins one that has ended.
pub(crate) fn join(state: &ListState, by: By, other: u8) -> bool
    requires there { other < THREADS }
    requires runs { stage_of state.now by.thread ≡ stage.Running }
    ensures { (setting : Setting) → Applies setting (act_by by.thread (act.Join other)) by.value state.now state.now result }
{
    has_ended(state.stage(other))
}

// The number as an id below the limit.
fn named(value: i64, limit: u16) -> Option<u16>
    ensures some { IfSome result (λ id. (value ≡ pos id) × (id < limit)) }
    ensures none { result ≡ None → (id : ℕ) → value ≡ pos id → id < limit → ⊥ }
{
    if value < 0 || value >= i64::from(limit) {
        return None;
    }
    Some(value as u16)
}

// The value is a monitor that the thread is not in.
fn is_not_owner(state: &ListState, by: By) -> bool
    ensures { Tells result (IsNotOwner state.now by.thread by.value) }
{
    match named(by.value, MONITORS) {
        None => false,
        Some(monitor) => match state.owner(monitor) {
            None => true,
            Some((owner, _)) => owner != by.thread,
        },
    }
}

// The value is a class whose next object does not fit.
fn is_full(program: &Program, state: &ListState, by: By) -> bool
    ensures { (inputs : List ℤ) → Tells result (IsFull (setting_of program.now inputs) state.now by.value) }
{
    // the program is valid, so it has no class beyond the limit
    let _valid = program.main();
    let class = match named(by.value, CLASSES) {
        None => return false,
        Some(class) => class,
    };
    match program.class_of(class) {
        None => false,
        Some(fields) => state.next_object(class, fields).is_none(),
    }
}

// The value is a thread that was never forked.
fn is_unforked(state: &ListState, by: By) -> bool
    ensures { Tells result (IsUnforked state.now by.value) }
{
    match named(by.value, u16::from(THREADS)) {
        None => false,
        Some(thread) => is_new(state.stage(thread as u8)),
    }
}

/// The state refuses what the thread asked for, so that it fails with this code and value.
pub(crate) fn fail(program: &Program, inputs: &Inputs, state: &ListState, by: By, code: u8) -> bool
    requires runs { stage_of state.now by.thread ≡ stage.Running }
    ensures { Applies (setting_of program.now inputs.now) (act_by by.thread (act.Fail code)) by.value state.now state.now result }
{
    match code {
        NOT_OWNER => is_not_owner(state, by),
        HEAP_FULL => is_full(program, state, by),
        THREADS_FULL => state.least_new().is_none(),
        INPUT_END => state.next_input(inputs).is_none(),
        BAD_THREAD => is_unforked(state, by),
        _ => false,
    }
}
