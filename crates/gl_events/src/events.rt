// The calls.
ghost use Rattle.std.specs.Prelude.{◌≡◌, ◌<◌, ◌||◌, ◌==◌, if◌then◌else◌, IfOk, IfErr, OnOk, OnErr, pos, length, slice_index_or, Contains};
ghost use Rattle.gl_model.specs.declared.event.Act.TheVariants.{Begin, End, Acq, Rel, VRead, VWrite, Fork, Join, Alloc, Print, Input, Fail};
ghost use Rattle.gl_model.specs.declared.limits.TheConstants.{THREADS, FUNCTIONS, CLASSES, MONITORS, VOLATILES};
ghost use Rattle.gl_model.specs.Entries.{Sync};
ghost use Rattle.gl_rule.specs.Levels.{levels_of};
ghost use Rattle.gl_table.specs.Doing.{told};
ghost use Rattle.gl_events.specs.Acting.{MayStart};
ghost use Rattle.gl_events.specs.Answers.{MayCall, IsDone, IsStop, says_quiet};
ghost use Rattle.gl_events.specs.Costs.{IsEventCost, IsStopCost};
ghost use Rattle.gl_events.specs.Calls.{HasCode, child_in, not_owner, heap_full, threads_full, input_end, bad_thread};
ghost use Rattle.gl_events.specs.declared.call.Call.TheVariants as call;

use crate::call::Call;
use crate::done::{Done, Stop};
use crate::event::event;
use gl_table::{Pass, Shared};

/// The thread begins; answers the function and the argument that it was forked with.
pub fn begin(shared: &Shared, pass: &mut Pass) -> Result<Done, Stop>
    requires may { MayCall call.Begin shared.now pass.old }
    ensures own { IfOk result (λ d. pass.new.own ≡ told (Sync d.at (Begin d.func) (d.value)) pass.old.own) }
    ensures done { IfOk result (λ d. IsDone shared.now pass.old pass.new (Begin d.func) (d.value) d) }
    ensures starts { IfOk result (λ d. MayStart shared.now.key.setting d.func) }
    ensures code { IfOk result (λ d. HasCode call.Begin d) }
    ensures cost { OnOk result (IsEventCost pass.old pass.new) }
    ensures kept { OnErr result (pass.new.own ≡ pass.old.own) }
    ensures stop { IfErr result (λ s. IsStop call.Begin shared.now pass.old pass.new s) }
    ensures stop_cost { IfErr result (IsStopCost pass.old pass.new) }
    ensures quiet { IfErr result (λ s. pass.new.quiet ≡ (pass.old.quiet || says_quiet s)) }
{
    event(shared, pass, &Call::Begin)
}

/// The thread ends.
pub fn end(shared: &Shared, pass: &mut Pass) -> Result<Done, Stop>
    requires may { MayCall call.End shared.now pass.old }
    ensures own { IfOk result (λ d. pass.new.own ≡ told (Sync d.at (End) (pos 0)) pass.old.own) }
    ensures done { IfOk result (λ d. IsDone shared.now pass.old pass.new (End) (pos 0) d) }
    ensures code { IfOk result (λ d. HasCode call.End d) }
    ensures cost { OnOk result (IsEventCost pass.old pass.new) }
    ensures kept { OnErr result (pass.new.own ≡ pass.old.own) }
    ensures stop { IfErr result (λ s. IsStop call.End shared.now pass.old pass.new s) }
    ensures stop_cost { IfErr result (IsStopCost pass.old pass.new) }
    ensures quiet { OnErr result (pass.new.quiet ≡ pass.old.quiet) }
{
    event(shared, pass, &Call::End)
}

/// The thread enters the monitor once more.
pub fn enter(shared: &Shared, pass: &mut Pass, monitor: u16) -> Result<Done, Stop>
    requires may { MayCall (call.Enter monitor) shared.now pass.old }
    requires there { monitor < MONITORS }
    ensures own { IfOk result (λ d. pass.new.own ≡ told (Sync d.at (Acq monitor) (pos 0)) pass.old.own) }
    ensures done { IfOk result (λ d. IsDone shared.now pass.old pass.new (Acq monitor) (pos 0) d) }
    ensures code { IfOk result (λ d. HasCode (call.Enter monitor) d) }
    ensures cost { OnOk result (IsEventCost pass.old pass.new) }
    ensures kept { OnErr result (pass.new.own ≡ pass.old.own) }
    ensures stop { IfErr result (λ s. IsStop (call.Enter monitor) shared.now pass.old pass.new s) }
    ensures stop_cost { IfErr result (IsStopCost pass.old pass.new) }
    ensures quiet { OnErr result (pass.new.quiet ≡ pass.old.quiet) }
{
    event(shared, pass, &Call::Enter(monitor))
}

/// The thread leaves the monitor once; the code 5 comes exactly where it is not in it, as its own list says.
pub fn exit(shared: &Shared, pass: &mut Pass, monitor: u16) -> Result<Done, Stop>
    requires may { MayCall (call.Exit monitor) shared.now pass.old }
    requires there { monitor < MONITORS }
    ensures own { IfOk result (λ d. pass.new.own ≡ told (Sync d.at (if d.code == 0 then Rel monitor else Fail not_owner) (if d.code == 0 then pos 0 else pos monitor)) pass.old.own) }
    ensures done { IfOk result (λ d. IsDone shared.now pass.old pass.new (if d.code == 0 then Rel monitor else Fail not_owner) (if d.code == 0 then pos 0 else pos monitor) d) }
    ensures code { IfOk result (λ d. HasCode (call.Exit monitor) d) }
    ensures owner { IfOk result (λ d. d.code ≡ (if slice_index_or (levels_of pass.old.own.mine) monitor 0 == 0 then not_owner else 0)) }
    ensures cost { OnOk result (IsEventCost pass.old pass.new) }
    ensures kept { OnErr result (pass.new.own ≡ pass.old.own) }
    ensures stop { IfErr result (λ s. IsStop (call.Exit monitor) shared.now pass.old pass.new s) }
    ensures stop_cost { IfErr result (IsStopCost pass.old pass.new) }
    ensures quiet { OnErr result (pass.new.quiet ≡ pass.old.quiet) }
{
    event(shared, pass, &Call::Exit(monitor))
}

/// The thread reads the volatile; answers its word.
pub fn vread(shared: &Shared, pass: &mut Pass, field: u16) -> Result<Done, Stop>
    requires may { MayCall (call.VRead field) shared.now pass.old }
    requires there { field < VOLATILES }
    ensures own { IfOk result (λ d. pass.new.own ≡ told (Sync d.at (VRead field) (d.value)) pass.old.own) }
    ensures done { IfOk result (λ d. IsDone shared.now pass.old pass.new (VRead field) (d.value) d) }
    ensures code { IfOk result (λ d. HasCode (call.VRead field) d) }
    ensures cost { OnOk result (IsEventCost pass.old pass.new) }
    ensures kept { OnErr result (pass.new.own ≡ pass.old.own) }
    ensures stop { IfErr result (λ s. IsStop (call.VRead field) shared.now pass.old pass.new s) }
    ensures stop_cost { IfErr result (IsStopCost pass.old pass.new) }
    ensures quiet { OnErr result (pass.new.quiet ≡ pass.old.quiet) }
{
    event(shared, pass, &Call::VRead(field))
}

/// The thread writes the value to the volatile.
pub fn vwrite(shared: &Shared, pass: &mut Pass, field: u16, value: i64) -> Result<Done, Stop>
    requires may { MayCall (call.VWrite field value) shared.now pass.old }
    requires there { field < VOLATILES }
    ensures own { IfOk result (λ d. pass.new.own ≡ told (Sync d.at (VWrite field) (value)) pass.old.own) }
    ensures done { IfOk result (λ d. IsDone shared.now pass.old pass.new (VWrite field) (value) d) }
    ensures code { IfOk result (λ d. HasCode (call.VWrite field value) d) }
    ensures cost { OnOk result (IsEventCost pass.old pass.new) }
    ensures kept { OnErr result (pass.new.own ≡ pass.old.own) }
    ensures stop { IfErr result (λ s. IsStop (call.VWrite field value) shared.now pass.old pass.new s) }
    ensures stop_cost { IfErr result (IsStopCost pass.old pass.new) }
    ensures quiet { OnErr result (pass.new.quiet ≡ pass.old.quiet) }
{
    event(shared, pass, &Call::VWrite { field, value })
}

/// The thread forks the least thread that was never forked, with a function and its argument; answers its number. The code 7 comes
/// exactly where the threads 1 to 15 were all forked.
pub fn fork(shared: &Shared, pass: &mut Pass, func: u16, value: i64) -> Result<Done, Stop>
    requires may { MayCall (call.Fork func value) shared.now pass.old }
    requires there { func < FUNCTIONS }
    requires starts { Contains shared.now.key.setting.forkable func }
    ensures own { IfOk result (λ d. pass.new.own ≡ told (Sync d.at (if d.code == 0 then Fork (child_in d.value) func else Fail threads_full) (if d.code == 0 then value else pos 0)) pass.old.own) }
    ensures done { IfOk result (λ d. IsDone shared.now pass.old pass.new (if d.code == 0 then Fork (child_in d.value) func else Fail threads_full) (if d.code == 0 then value else pos 0) d) }
    ensures code { IfOk result (λ d. HasCode (call.Fork func value) d) }
    ensures cost { OnOk result (IsEventCost pass.old pass.new) }
    ensures kept { OnErr result (pass.new.own ≡ pass.old.own) }
    ensures stop { IfErr result (λ s. IsStop (call.Fork func value) shared.now pass.old pass.new s) }
    ensures stop_cost { IfErr result (IsStopCost pass.old pass.new) }
    ensures quiet { OnErr result (pass.new.quiet ≡ pass.old.quiet) }
{
    event(shared, pass, &Call::Fork { func, value })
}

/// The thread goes on behind the end of another; the code 11 comes exactly where that was never forked.
pub fn join(shared: &Shared, pass: &mut Pass, thread: u8) -> Result<Done, Stop>
    requires may { MayCall (call.Join thread) shared.now pass.old }
    requires there { thread < THREADS }
    ensures own { IfOk result (λ d. pass.new.own ≡ told (Sync d.at (if d.code == 0 then Join thread else Fail bad_thread) (if d.code == 0 then pos 0 else pos thread)) pass.old.own) }
    ensures done { IfOk result (λ d. IsDone shared.now pass.old pass.new (if d.code == 0 then Join thread else Fail bad_thread) (if d.code == 0 then pos 0 else pos thread) d) }
    ensures code { IfOk result (λ d. HasCode (call.Join thread) d) }
    ensures cost { OnOk result (IsEventCost pass.old pass.new) }
    ensures kept { OnErr result (pass.new.own ≡ pass.old.own) }
    ensures stop { IfErr result (λ s. IsStop (call.Join thread) shared.now pass.old pass.new s) }
    ensures stop_cost { IfErr result (IsStopCost pass.old pass.new) }
    ensures quiet { OnErr result (pass.new.quiet ≡ pass.old.quiet) }
{
    event(shared, pass, &Call::Join(thread))
}

/// The thread makes an object of the class; answers its reference. The code 6 comes exactly where it does not fit.
pub fn alloc_object(shared: &Shared, pass: &mut Pass, class: u16) -> Result<Done, Stop>
    requires may { MayCall (call.Alloc class) shared.now pass.old }
    requires there { class < CLASSES }
    requires class { class < length shared.now.key.setting.classes }
    ensures own { IfOk result (λ d. pass.new.own ≡ told (Sync d.at (if d.code == 0 then Alloc class else Fail heap_full) (if d.code == 0 then d.value else pos class)) pass.old.own) }
    ensures done { IfOk result (λ d. IsDone shared.now pass.old pass.new (if d.code == 0 then Alloc class else Fail heap_full) (if d.code == 0 then d.value else pos class) d) }
    ensures code { IfOk result (λ d. HasCode (call.Alloc class) d) }
    ensures cost { OnOk result (IsEventCost pass.old pass.new) }
    ensures kept { OnErr result (pass.new.own ≡ pass.old.own) }
    ensures stop { IfErr result (λ s. IsStop (call.Alloc class) shared.now pass.old pass.new s) }
    ensures stop_cost { IfErr result (IsStopCost pass.old pass.new) }
    ensures quiet { OnErr result (pass.new.quiet ≡ pass.old.quiet) }
{
    event(shared, pass, &Call::Alloc(class))
}

/// The thread prints the value.
pub fn print(shared: &Shared, pass: &mut Pass, value: i64) -> Result<Done, Stop>
    requires may { MayCall (call.Print value) shared.now pass.old }
    ensures own { IfOk result (λ d. pass.new.own ≡ told (Sync d.at (Print) (value)) pass.old.own) }
    ensures done { IfOk result (λ d. IsDone shared.now pass.old pass.new (Print) (value) d) }
    ensures code { IfOk result (λ d. HasCode (call.Print value) d) }
    ensures cost { OnOk result (IsEventCost pass.old pass.new) }
    ensures kept { OnErr result (pass.new.own ≡ pass.old.own) }
    ensures stop { IfErr result (λ s. IsStop (call.Print value) shared.now pass.old pass.new s) }
    ensures stop_cost { IfErr result (IsStopCost pass.old pass.new) }
    ensures quiet { OnErr result (pass.new.quiet ≡ pass.old.quiet) }
{
    event(shared, pass, &Call::Print(value))
}

/// The thread reads the next number of the inputs; answers it. The code 8 comes exactly where all were read.
pub fn input(shared: &Shared, pass: &mut Pass) -> Result<Done, Stop>
    requires may { MayCall call.Input shared.now pass.old }
    ensures own { IfOk result (λ d. pass.new.own ≡ told (Sync d.at (if d.code == 0 then Input else Fail input_end) (d.value)) pass.old.own) }
    ensures done { IfOk result (λ d. IsDone shared.now pass.old pass.new (if d.code == 0 then Input else Fail input_end) (d.value) d) }
    ensures code { IfOk result (λ d. HasCode call.Input d) }
    ensures cost { OnOk result (IsEventCost pass.old pass.new) }
    ensures kept { OnErr result (pass.new.own ≡ pass.old.own) }
    ensures stop { IfErr result (λ s. IsStop call.Input shared.now pass.old pass.new s) }
    ensures stop_cost { IfErr result (IsStopCost pass.old pass.new) }
    ensures quiet { OnErr result (pass.new.quiet ≡ pass.old.quiet) }
{
    event(shared, pass, &Call::Input)
}
