// What a running thread does to the state, one function for each act that changes it. Each answers whether the act, with the value
// of its entry, is a step of the machine, and makes the step if it is one.
ghost use Rattle.std.specs.Prelude.{◌≡◌, ℤ, ◌<◌, Contains, List};
ghost use Rattle.gl_acts.specs.Applying.{act_by, Applies, Tells};
ghost use Rattle.gl_acts.specs.Refusing.{HasEntered};
ghost use Rattle.gl_bytecode.specs.Lawful.{forkable_of, setting_of};
ghost use Rattle.gl_bytecode.specs.Programs.{Bytecode};
ghost use Rattle.gl_model.specs.declared.event.Act.TheVariants as act;
ghost use Rattle.gl_model.specs.declared.limits.TheConstants.{CLASSES, MONITORS, THREADS, VOLATILES};
ghost use Rattle.gl_model.specs.Machine.{Setting};
ghost use Rattle.gl_state.specs.declared.state.Stage.TheVariants as stage;
ghost use Rattle.gl_state.specs.Acts.{IsLeastNew, stage_of};
ghost use Rattle.gl_state.specs.Entering.{IsShallow};

use gl_bytecode::Program;
use gl_model::Inputs;
use gl_state::ListState;

/// Whose act an entry is, and the value that the entry carries.
#[derive(Clone, Copy)]
pub(crate) struct By {
    pub thread: u8,
    pub value: i64,
}

/// The thread ends.
pub(crate) fn end(state: &mut ListState, by: By) -> bool
    requires there { by.thread < THREADS }
    requires runs { stage_of state.old by.thread ≡ stage.Running }
    ensures { (setting : Setting) → Applies setting (act_by by.thread act.End) by.value state.old state.new result }
{
    state.end(by.thread);
    true
}

/// The thread enters a monitor, which no other thread owns.
pub(crate) fn acquire(state: &mut ListState, by: By, monitor: u16) -> bool
    requires there { monitor < MONITORS }
    requires shallow { IsShallow state.old monitor }
    requires runs { stage_of state.old by.thread ≡ stage.Running }
    ensures { (setting : Setting) → Applies setting (act_by by.thread (act.Acq monitor)) by.value state.old state.new result }
{
    if state.other_owner(by.thread, monitor).is_some() {
        return false;
    }
    state.enter(by.thread, monitor);
    true
}

// The thread has entered the monitor, and has not left it as often.
fn has_entered(state: &ListState, thread: u8, monitor: u16) -> bool
    requires there { monitor < MONITORS }
    ensures { Tells result (HasEntered state.now thread monitor) }
{
    match state.owner(monitor) {
        None => false,
        Some((owner, depth)) => owner == thread && depth > 0,
    }
}

/// The thread leaves a monitor that it has entered.
pub(crate) fn release(state: &mut ListState, by: By, monitor: u16) -> bool
    requires there { monitor < MONITORS }
    requires runs { stage_of state.old by.thread ≡ stage.Running }
    ensures { (setting : Setting) → Applies setting (act_by by.thread (act.Rel monitor)) by.value state.old state.new result }
{
    if !has_entered(state, by.thread, monitor) {
        return false;
    }
    state.leave(by.thread, monitor);
    true
}

/// The thread reads the present word of a volatile.
pub(crate) fn read(state: &ListState, by: By, field: u16) -> bool
    requires there { field < VOLATILES }
    requires runs { stage_of state.now by.thread ≡ stage.Running }
    ensures { (setting : Setting) → Applies setting (act_by by.thread (act.VRead field)) by.value state.now state.now result }
{
    by.value == state.word(field)
}

/// The thread writes a volatile.
pub(crate) fn write(state: &mut ListState, by: By, field: u16) -> bool
    requires there { field < VOLATILES }
    requires runs { stage_of state.old by.thread ≡ stage.Running }
    ensures { (setting : Setting) → Applies setting (act_by by.thread (act.VWrite field)) by.value state.old state.new result }
{
    state.write(field, by.value);
    true
}

// The thread is the least but 0 that was never forked.
fn is_least_new(state: &ListState, thread: u8) -> bool
    ensures { Tells result (IsLeastNew state.now thread) }
{
    match state.least_new() {
        None => false,
        Some(least) => least == thread,
    }
}

// A thread may be forked with the function.
fn is_forkable(program: &Program, func: u16) -> bool
    ensures { Tells result (Contains (forkable_of program.now) func) }
{
    program.args(func) == 1
}

/// The thread forks the least thread that was never forked, with a function that a thread may be forked with.
pub(crate) fn fork(program: &Program, state: &mut ListState, by: By, child: u8, func: u16) -> bool
    requires there { child < THREADS }
    requires runs { stage_of state.old by.thread ≡ stage.Running }
    ensures { (xs : List ℤ) → Applies (setting_of program.now xs) (act_by by.thread (act.Fork child func)) by.value state.old state.new result }
{
    if !is_forkable(program, func) || !is_least_new(state, child) {
        return false;
    }
    state.fork(child, func, by.value);
    true
}

/// The thread makes an object of a class, for which there is room, and is told its reference.
pub(crate) fn make(program: &Program, state: &mut ListState, by: By, class: u16) -> bool
    requires there { class < CLASSES }
    requires runs { stage_of state.old by.thread ≡ stage.Running }
    ensures { (xs : List ℤ) → Applies (setting_of program.now xs) (act_by by.thread (act.Alloc class)) by.value state.old state.new result }
{
    let fields = match program.class_of(class) {
        None => return false,
        Some(fields) => fields,
    };
    match state.next_object(class, fields) {
        None => false,
        Some(reference) => {
            if reference != by.value {
                return false;
            }
            state.make(fields);
            true
        }
    }
}

/// The thread takes the next number of the inputs.
pub(crate) fn take(inputs: &Inputs, state: &mut ListState, by: By) -> bool
    requires runs { stage_of state.old by.thread ≡ stage.Running }
    ensures { (P : Bytecode) → Applies (setting_of P inputs.now) (act_by by.thread act.Input) by.value state.old state.new result }
{
    match state.next_input(inputs) {
        None => false,
        Some(next) => {
            if next != by.value {
                return false;
            }
            // no more were taken than there are, and those can be counted
            let _few = inputs.len();
            state.take_input();
            true
        }
    }
}
