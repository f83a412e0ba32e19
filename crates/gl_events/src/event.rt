// One event, whatever it is: the list is taken, its state looked at, room asked for, the act published, and the list put back.
ghost use Rattle.std.specs.Prelude.{◌≡◌, ◌||◌, ◌<◌, [], IfOk, IfErr, OnOk, OnErr};
ghost use Rattle.gl_model.specs.Entries.{Sync};
ghost use Rattle.gl_rule.specs.declared.slot.Slot.TheVariants as slot;
ghost use Rattle.gl_table.specs.Doing.{told, announced};
ghost use Rattle.gl_table.specs.Putting.{MayPublishAct};
ghost use Rattle.gl_events.specs.Answers.{MayCall, IsDone, IsStop, says_quiet};
ghost use Rattle.gl_events.specs.Costs.{IsEventCost, IsStopCost};
ghost use Rattle.gl_events.specs.Calls.{IsCallInRange, HasCode, act_of, value_of};

use crate::apply::apply;
use crate::call::{Call, Plan};
use crate::done::{Done, Stop, answer};
use crate::look::look;
use gl_segments::room;
use gl_state::ListState;
use gl_table::{Pass, Shared};

// Whether a thread waits to be forked, and there is none that could.
fn is_quiet(stop: &Stop) -> bool
    ensures { result ≡ says_quiet stop.now }
{
    match *stop {
        Stop::NotForked { live } => live == 0,
        Stop::Busy { by: _ }
        | Stop::Blocked { owner: _ }
        | Stop::NotEnded { thread: _ }
        | Stop::RingFull { low: _, tail: _ } => false,
    }
}

// Publishes the act, and puts the list back as it is then.
fn announce(shared: &Shared, pass: &mut Pass, plan: &Plan, state: ListState) -> u64
    requires table { pass.old.own.table ≡ shared.now.id }
    requires idle { pass.old.own.drawn ≡ [] }
    requires spare { 0 < pass.old.spare }
    requires may { MayPublishAct shared.now.key pass.old plan.now.act plan.now.value state }
    ensures is { pass.new ≡ announced pass.old plan.now.act plan.now.value result (slot.List state) }
    ensures here { result ≡ pass.old.seen }
{
    let at = shared.publish(pass, &plan.act, plan.value, &state);
    shared.put_list(pass, state, false);
    at
}

// Makes the event of the call.
pub fn event(shared: &Shared, pass: &mut Pass, call: &Call) -> Result<Done, Stop>
    requires may { MayCall call.now shared.now pass.old }
    requires range { IsCallInRange shared.now.key.setting call.now }
    ensures own { IfOk result (λ d. pass.new.own ≡ told (Sync d.at (act_of call.now d) (value_of call.now d)) pass.old.own) }
    ensures done { IfOk result (λ d. IsDone shared.now pass.old pass.new (act_of call.now d) (value_of call.now d) d) }
    ensures code { IfOk result (λ d. HasCode call.now d) }
    ensures cost { OnOk result (IsEventCost pass.old pass.new) }
    ensures kept { OnErr result (pass.new.own ≡ pass.old.own) }
    ensures stop { IfErr result (λ s. IsStop call.now shared.now pass.old pass.new s) }
    ensures stop_cost { IfErr result (IsStopCost pass.old pass.new) }
    ensures quiet { IfErr result (λ s. pass.new.quiet ≡ (pass.old.quiet || says_quiet s)) }
{
    let _main = shared.main();
    let mut state = match shared.take_list(pass) {
        Ok(state) => state,
        Err(busy) => return Err(Stop::Busy { by: busy.by }),
    };
    let plan = match look(shared, &state, pass.id(), call) {
        Ok(plan) => plan,
        Err(stop) => {
            shared.put_list(pass, state, is_quiet(&stop));
            return Err(stop);
        }
    };
    let low = shared.low(pass);
    let tail = shared.tail(pass);
    if !room(shared.ring(), low, tail) {
        shared.put_list(pass, state, false);
        return Err(Stop::RingFull { low, tail });
    }
    apply(shared, &mut state, pass.id(), &plan);
    let at = announce(shared, pass, &plan, state);
    Ok(answer(at, &plan.act, plan.value))
}
