// What a call does with the list's state: the act that it publishes, or why it waits.
ghost use Rattle.std.specs.Prelude.{◌≡◌, ◌<◌, IfOk, IfErr, length, Contains};
ghost use Rattle.gl_model.specs.declared.event.Act.TheVariants.{Fail};
ghost use Rattle.gl_model.specs.declared.limits.TheConstants.{THREADS, FUNCTIONS, CLASSES, MONITORS};
ghost use Rattle.gl_events.specs.Acting.{IsSound, IsPlan};
ghost use Rattle.gl_events.specs.Answers.{Refuses};
ghost use Rattle.gl_events.specs.Calls.{IsCallInRange};
ghost use Rattle.gl_events.specs.declared.call.Call.TheVariants as call;

use crate::call::{Call, Plan};
use crate::done::Stop;
use gl_model::Act;
use gl_state::{ListState, Stage};
use gl_table::Shared;

const NOT_OWNER: u8 = 5;

const HEAP_FULL: u8 = 6;

const THREADS_FULL: u8 = 7;

const INPUT_END: u8 = 8;

const BAD_THREAD: u8 = 11;

fn does(act: Act, value: i64) -> Plan
    ensures { (result.act ≡ act) × (result.value ≡ value) }
{
    Plan { act, value }
}

// A failure with this code.
fn fails(code: u8, value: i64) -> Plan
    ensures { (result.act ≡ Fail code) × (result.value ≡ value) }
{
    Plan {
        act: Act::Fail(code),
        value,
    }
}

fn begin(shared: &Shared, state: &ListState, thread: u8) -> Result<Plan, Stop>
    requires there { thread < THREADS }
    requires sound { IsSound shared.now.key.setting thread state.now }
    ensures plan { IfOk result (λ a. IsPlan call.Begin shared.now.key.setting thread state.now a) }
    ensures refuses { IfErr result (λ s. Refuses call.Begin thread state.now s) }
{
    match state.stage(thread) {
        Stage::Forked { func, value } => Ok(does(Act::Begin(func), value)),
        Stage::Never | Stage::Running | Stage::Ended => Err(Stop::NotForked {
            live: state.live() as u8,
        }),
    }
}

fn enter(shared: &Shared, state: &ListState, thread: u8, monitor: u16) -> Result<Plan, Stop>
    requires there { monitor < MONITORS }
    requires sound { IsSound shared.now.key.setting thread state.now }
    ensures plan { IfOk result (λ a. IsPlan (call.Enter monitor) shared.now.key.setting thread state.now a) }
    ensures refuses { IfErr result (λ s. Refuses (call.Enter monitor) thread state.now s) }
{
    if let Some(owner) = state.other_owner(thread, monitor) {
        return Err(Stop::Blocked { owner });
    }
    Ok(does(Act::Acq(monitor), 0))
}

fn exit(shared: &Shared, state: &ListState, thread: u8, monitor: u16) -> Plan
    requires there { monitor < MONITORS }
    requires sound { IsSound shared.now.key.setting thread state.now }
    ensures { IsPlan (call.Exit monitor) shared.now.key.setting thread state.now result }
{
    match state.owner(monitor) {
        None => fails(NOT_OWNER, monitor as i64),
        Some((owner, _)) => {
            if owner == thread {
                return does(Act::Rel(monitor), 0);
            }
            fails(NOT_OWNER, monitor as i64)
        }
    }
}

fn fork(shared: &Shared, state: &ListState, thread: u8, func: u16, value: i64) -> Plan
    requires func { (func < FUNCTIONS) × Contains shared.now.key.setting.forkable func }
    ensures { IsPlan (call.Fork func value) shared.now.key.setting thread state.now result }
{
    match state.least_new() {
        Some(child) => does(Act::Fork { child, func }, value),
        None => fails(THREADS_FULL, 0),
    }
}

fn join(shared: &Shared, state: &ListState, thread: u8, child: u8) -> Result<Plan, Stop>
    requires there { child < THREADS }
    ensures plan { IfOk result (λ a. IsPlan (call.Join child) shared.now.key.setting thread state.now a) }
    ensures refuses { IfErr result (λ s. Refuses (call.Join child) thread state.now s) }
{
    match state.stage(child) {
        Stage::Never => Ok(fails(BAD_THREAD, child as i64)),
        Stage::Ended => Ok(does(Act::Join(child), 0)),
        Stage::Forked { func: _, value: _ } | Stage::Running => {
            Err(Stop::NotEnded { thread: child })
        }
    }
}

fn alloc(shared: &Shared, state: &ListState, thread: u8, class: u16) -> Plan
    requires there { (class < CLASSES) × (class < length shared.now.key.setting.classes) }
    ensures { IsPlan (call.Alloc class) shared.now.key.setting thread state.now result }
{
    let Some(fields) = shared.classes().get(class) else {
        unreachable!()
    };
    match state.next_object(class, fields) {
        Some(reference) => does(Act::Alloc(class), reference),
        None => fails(HEAP_FULL, class as i64),
    }
}

fn input(shared: &Shared, state: &ListState, thread: u8) -> Plan
    ensures { IsPlan call.Input shared.now.key.setting thread state.now result }
{
    match state.next_input(shared.inputs()) {
        Some(value) => does(Act::Input, value),
        None => fails(INPUT_END, 0),
    }
}

// What the call does with the state.
pub fn look(shared: &Shared, state: &ListState, thread: u8, call: &Call) -> Result<Plan, Stop>
    requires there { thread < THREADS }
    requires range { IsCallInRange shared.now.key.setting call.now }
    requires sound { IsSound shared.now.key.setting thread state.now }
    ensures plan { IfOk result (λ a. IsPlan call.now shared.now.key.setting thread state.now a) }
    ensures refuses { IfErr result (λ s. Refuses call.now thread state.now s) }
{
    match *call {
        Call::Begin => begin(shared, state, thread),
        Call::End => Ok(does(Act::End, 0)),
        Call::Enter(monitor) => enter(shared, state, thread, monitor),
        Call::Exit(monitor) => Ok(exit(shared, state, thread, monitor)),
        Call::VRead(field) => Ok(does(Act::VRead(field), state.word(field))),
        Call::VWrite { field, value } => Ok(does(Act::VWrite(field), value)),
        Call::Fork { func, value } => Ok(fork(shared, state, thread, func, value)),
        Call::Join(child) => join(shared, state, thread, child),
        Call::Alloc(class) => Ok(alloc(shared, state, thread, class)),
        Call::Print(value) => Ok(does(Act::Print, value)),
        Call::Input => Ok(input(shared, state, thread)),
    }
}
