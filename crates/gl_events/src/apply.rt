// What the list's state becomes by an act.
ghost use Rattle.std.specs.Prelude.{◌≡◌, ◌<◌, Some};
ghost use Rattle.std.specs.Prelude.{slice_get};
ghost use Rattle.gl_model.specs.declared.limits.TheConstants.{THREADS};
ghost use Rattle.gl_state.specs.Acts.{HasRoom, with_object, with_input};
ghost use Rattle.gl_events.specs.Acting.{MayAct, Becomes};

use crate::call::Plan;
use gl_model::Act;
use gl_state::ListState;
use gl_table::Shared;

// An object of the class is made, for which there is room.
fn make(shared: &Shared, state: &mut ListState, class: u16)
    requires room { (fields : _) × (slice_get shared.now.key.setting.classes class ≡ Some fields) × HasRoom state.old fields }
    ensures { (fields : _) × (slice_get shared.now.key.setting.classes class ≡ Some fields) × (state.new ≡ with_object state.old fields) }
{
    let Some(fields) = shared.classes().get(class) else {
        unreachable!()
    };
    state.make(fields);
}

// The next number of the inputs is taken, of which there is one.
fn take(shared: &Shared, state: &mut ListState)
    requires more { (value : _) × (slice_get shared.now.key.setting.inputs state.old.inputs_taken ≡ Some value) }
    ensures { state.new ≡ with_input state.old }
{
    let _count = shared.inputs().len();
    state.take_input();
}

// Makes of the state what it is after the act, which it allows.
pub fn apply(shared: &Shared, state: &mut ListState, thread: u8, plan: &Plan)
    requires there { thread < THREADS }
    requires may { MayAct shared.now.key.setting thread state.old plan.now.act plan.now.value }
    ensures { Becomes shared.now.key.setting thread plan.now.act plan.now.value state.old state.new }
{
    match plan.act {
        Act::Begin(_) => state.begin(thread),
        Act::End => state.end(thread),
        Act::Acq(monitor) => state.enter(thread, monitor),
        Act::Rel(monitor) => state.leave(thread, monitor),
        Act::VWrite(field) => state.write(field, plan.value),
        Act::Fork { child, func } => state.fork(child, func, plan.value),
        Act::Alloc(class) => make(shared, state, class),
        Act::Input => take(shared, state),
        Act::VRead(_) | Act::Join(_) | Act::Print | Act::Fail(_) => {}
    }
}
