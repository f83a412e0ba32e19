// Events that a machine asks for.
ghost use Rattle.std.specs.Prelude.{◌≡◌, IfOk, IfErr, IfSome, OnErr};
ghost use Rattle.gl_vm.specs.Asking.{AsksInRange};
ghost use Rattle.gl_table.specs.Doing.{told};
ghost use Rattle.gl_rule.specs.Levels.{levels_of};
ghost use Rattle.gl_events.specs.Answers.{IsStop};
ghost use Rattle.gl_riders.specs.Events.{IsDoneFor, IsEvent, MayAsk, answer_or, event_call, event_entry, event_reply, go_or};
ghost use Rattle.gl_riders.specs.Riding.{IsSetFor};

use gl_bytecode::Program;
use gl_events::{Done, Stop};
use gl_table::{Pass, Shared};
use gl_vm::{Ask, Reply};

// The event call that the ask names.
pub(crate) fn event(
    shared: &Shared,
    pass: &mut Pass,
    program: &Program,
    ask: Ask,
) -> Result<Done, Stop>
    requires event { IsEvent ask }
    requires set { IsSetFor program.now shared.now.key.setting }
    requires in_range { AsksInRange program.now ask }
    requires may { MayAsk shared.now pass.old ask }
    ensures entry { IfOk result (λ d. pass.new.own ≡ told (event_entry ask d) pass.old.own) }
    ensures done { IfOk result (λ d. IsDoneFor shared.now.key.setting (levels_of pass.old.own.mine) ask d) }
    ensures kept { OnErr result (pass.new.own ≡ pass.old.own) }
    ensures stop { IfErr result (λ s. IfSome (event_call ask) (λ c. IsStop c shared.now pass.old pass.new s)) }
{
    // What they ensure of the ids: a program is valid, and a table has no functions but those that there may be.
    let _main = program.main();
    let _begins = shared.main();
    match ask {
        Ask::Begin => gl_events::begin(shared, pass),
        Ask::End => gl_events::end(shared, pass),
        Ask::VRead { field } => gl_events::vread(shared, pass, field),
        Ask::VWrite { field, value } => gl_events::vwrite(shared, pass, field, value),
        Ask::Enter { monitor } => gl_events::enter(shared, pass, monitor),
        Ask::Exit { monitor } => gl_events::exit(shared, pass, monitor),
        Ask::Fork { func, value } => gl_events::fork(shared, pass, func, value),
        Ask::Join { thread } => gl_events::join(shared, pass, thread),
        Ask::Alloc { class } => gl_events::alloc_object(shared, pass, class),
        Ask::Print { value } => gl_events::print(shared, pass, value),
        Ask::Input => gl_events::input(shared, pass),
        Ask::Go
        | Ask::Over(_)
        | Ask::Read { .. }
        | Ask::Write { .. }
        | Ask::TxBegin
        | Ask::TxEnd { .. } => unreachable!(),
    }
}

// What the machine is answered.
pub(crate) fn reply_of(ask: Ask, done: Done) -> Reply
    ensures { result ≡ event_reply ask done }
{
    match ask {
        Ask::Begin => Reply::Start {
            func: done.func,
            value: done.value,
        },
        Ask::VRead { .. } => Reply::Value(done.value),
        Ask::Fork { .. } | Ask::Alloc { .. } | Ask::Input => answer_or(done.code, done.value),
        Ask::Exit { .. } | Ask::Join { .. } => go_or(done.code),
        _ => Reply::Go,
    }
}

fn go_or(code: u8) -> Reply
    ensures { result ≡ go_or code }
{
    if code == 0 {
        Reply::Go
    } else {
        Reply::Raise(code)
    }
}

fn answer_or(code: u8, value: i64) -> Reply
    ensures { result ≡ answer_or code value }
{
    if code == 0 {
        Reply::Value(value)
    } else {
        Reply::Raise(code)
    }
}
