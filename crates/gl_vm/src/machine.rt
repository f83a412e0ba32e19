ghost use Rattle.std.specs.Prelude.{◌≡◌, ◌+◌, ◌-◌, ◌<◌, ◌≤◌, [], ◌∷◌, ◌^◌, EachIndex, length, drop, slice_set, slice_index, IfOk, IfSome, is_some, nat_lt, position, Some, None, IsTrue};
ghost use Rattle.gl_model.specs.declared.limits.TheConstants.{MONITORS};
ghost use Rattle.gl_bytecode.specs.declared.limits.TheConstants.{CALLERS, LOCALS, OPERANDS};
ghost use Rattle.gl_bytecode.specs.Machine.{answers, held_monitor};
ghost use Rattle.gl_bytecode.specs.declared.ask.Stage.TheVariants.{Leaves, Runs, Waits};
ghost use Rattle.gl_bytecode.specs.declared.ask.Ask.TheVariants.{Exit};

use crate::callers::Callers;
use crate::frame::Frame;
use crate::rows::outcome;
use gl_bytecode::{
    Ask, BAD_THREAD, CALLERS, DEPTH, Failure, HEAP_FULL, INPUT_END, Instr, NOT_OWNER, Outcome,
    Program, RACE, Reply, Stage, THREADS_FULL, TX_STATE, TX_TOO_LARGE,
};
use gl_model::{Ending, MONITORS};
use std::alloc::{AllocError, Global};
use std::marker::Model;

/// One thread's machine.
#[derive(Drop)]
pub struct Machine {
    thread: u8,
    limit: u32,
    counted: u32,
    pub(crate) frame: Frame,
    callers: Callers,
    levels: Vec<u32>,
    // The frame as it stood at the beginning of the attempt, and how many callers it had.
    in_attempt: bool,
    kept: Frame,
    kept_depth: usize,
    pub(crate) stage: Stage,
}

impl Model for Machine {
    ghost use Rattle.gl_bytecode.specs.Machine.{Config};

    ghost Value = { Config };

    ghost use Rattle.gl_vm.specs.MachineView.{config_of, IsKept};

    ghost view = { config_of };

    ghost invariant = { IsKept };
}

impl Machine {
    ghost use Rattle.gl_bytecode.specs.Machine.{Config, again, ask_of, attempt_after, dropped, failed, failing, is_refused, begun, called, ending_with, done, answered, fresh, levels_after, next, raised, returned, settled, started, takes};
    ghost use Rattle.gl_bytecode.specs.Attending.{Attends, runs_after};
    ghost use Rattle.gl_bytecode.specs.Fits.{Fits, NamesMonitor, StartsRight};
    ghost use Rattle.gl_vm.specs.Asking.{AsksInRange};
    ghost use Rattle.gl_vm.specs.Ready.{CallerIsReady, CanDo, CanDrop, CanStart, CanTake, HasDepth, IsDoable};
    ghost use Rattle.gl_bytecode.specs.Programs.{function_at, instr_at};
    ghost use Rattle.gl_bytecode.specs.Instructions.{args_of, needs};

    /// A new machine of this thread.
    pub fn new(
        alloc: Global,
        program: &Program,
        thread: u8,
        steps: u32,
    ) -> Result<Machine, AllocError>
        ensures fresh { IfOk result (λ m. m ≡ fresh program.now thread steps) }
        ensures fits { IfOk result (λ m. Fits program.now m) }
    {
        Ok(Machine {
            thread,
            limit: steps,
            counted: 0,
            frame: Frame::new(alloc, program.main())?,
            callers: Callers::new(alloc)?,
            levels: vec![in alloc; 0; MONITORS as usize]?,
            in_attempt: false,
            kept: Frame::new(alloc, 0)?,
            kept_depth: 0,
            stage: Stage::New,
        })
    }

    /// What it asked last.
    pub fn asked(&self) -> Ask
        ensures value { result ≡ ask_of self.now.stage }
        ensures monitor { NamesMonitor result }
    {
        match self.stage {
            Stage::New | Stage::Runs => Ask::Go,
            Stage::Begins => Ask::Begin,
            Stage::Waits(ask) => ask,
            Stage::Drops(_) => Ask::TxEnd { keep: false },
            Stage::Leaves { monitor, .. } => Ask::Exit { monitor },
            Stage::Ends(_) => Ask::End,
            Stage::Over(ending) => Ask::Over(ending),
        }
    }

    /// Does an attempt run, so that the reads and writes that it asks for belong to it?
    pub fn in_tx(&self) -> bool
        ensures { result ≡ is_some self.now.attempt }
    {
        self.in_attempt
    }

    /// Does the reply fit what it asked last?
    pub fn takes(&self, reply: &Reply) -> bool
        ensures { result ≡ takes self.now reply.now }
    {
        match self.stage {
            Stage::New | Stage::Runs | Stage::Leaves { .. } | Stage::Ends(_) => matches!(
                reply,
                Reply::Go
            ),
            Stage::Begins => matches!(reply, Reply::Start { .. }),
            Stage::Waits(ask) => {
                let refusal = if self.in_attempt { TX_TOO_LARGE } else { RACE };
                answers(refusal, &ask, reply)
            }
            Stage::Drops(_) => answers(RACE, &Ask::TxEnd { keep: false }, reply),
            Stage::Over(_) => false,
        }
    }

    /// Takes the reply and goes on by one instruction at most, to the next ask. While an attempt runs that is to go on, a read, a write
    /// or the attempt's end; an attempt runs from the answer to `TxBegin` to that to `TxEnd`.
    pub fn step(&mut self, program: &Program, reply: Reply) -> Ask
        requires fits { Fits program.now self.old }
        requires taken { IsTrue (takes self.old reply) }
        requires start { StartsRight program.now reply }
        ensures next { self.new ≡ next program.now self.old reply }
        ensures ask { result ≡ ask_of self.new.stage }
        ensures in_range { AsksInRange program.now result }
        ensures inside { Attends self.new.attempt result }
        ensures attempt { is_some self.new.attempt ≡ runs_after (ask_of self.old.stage) (is_some self.old.attempt) }
        ensures fits { Fits program.now self.new }
    {
        self.advance(program, reply);
        self.asked()
    }

    // One step.
    fn advance(&mut self, program: &Program, reply: Reply)
        requires fits { Fits program.now self.old }
        requires taken { IsTrue (takes self.old reply) }
        requires start { StartsRight program.now reply }
        ensures { self.new ≡ next program.now self.old reply }
    {
        match self.stage {
            Stage::New => self.stage = Stage::Begins,
            Stage::Begins => {
                if let Reply::Start { func, value } = reply {
                    self.begin(program, func, value);
                }
            }
            Stage::Runs => self.start(program),
            Stage::Waits(ask) => self.settle(program, ask, reply),
            Stage::Drops(failure) => self.drop_attempt(program, failure, reply),
            Stage::Leaves { ending, monitor } => {
                self.leave(ending, monitor);
                self.end(ending);
            }
            Stage::Ends(ending) => self.stage = Stage::Over(ending),
            Stage::Over(_) => (),
        }
    }

    // It begins to leave its monitors, and then ends.
    fn end(&mut self, ending: Ending)
        ensures { self.new ≡ ending_with ending self.old }
    {
        self.stage = match first_entered(&self.levels) {
            Some(monitor) => Stage::Leaves { ending, monitor },
            None => Stage::Ends(ending),
        };
    }

    // The exception goes up to the first frame that handles it, or the thread ends.
    fn raise(&mut self, program: &Program, code: u8)
        ensures { self.new ≡ raised program.now code self.old }
    {
        'frames: loop {
            if let Some(catch) = program.handler(self.frame.function(), self.frame.place()) {
                self.frame.handle(code, catch.target);
                self.stage = Stage::Runs;
                return;
            }
            if !self.callers.back(&mut self.frame) {
                self.end(Ending::Uncaught(code));
                return;
            }
        }
    }

    // The exception goes on, or the thread ends.
    fn fail_on(&mut self, program: &Program, failure: Failure)
        ensures { self.new ≡ failing program.now failure self.old }
    {
        match failure {
            Failure::Raises(code) => self.raise(program, code),
            Failure::Spends => self.end(Ending::Spent),
        }
    }

    // The same, but inside an attempt its looks are committed first.
    fn fail(&mut self, program: &Program, failure: Failure)
        ensures { self.new ≡ failed program.now failure self.old }
    {
        if self.in_attempt {
            self.stage = Stage::Drops(failure);
        } else {
            self.fail_on(program, failure);
        }
    }

    // No attempt runs any more.
    fn leave_attempt(&mut self)
        ensures { self.new ≡ record self.old { attempt = None } }
    {
        self.in_attempt = false;
    }

    // An attempt begins or ends by an ask that was answered.
    fn turn_attempt(&mut self, ask: Ask)
        ensures { self.new ≡ record self.old { attempt = attempt_after ask self.old } }
    {
        match ask {
            Ask::TxBegin => {
                self.kept.copy_from(&self.frame);
                self.kept_depth = self.callers.len();
                self.in_attempt = true;
            }
            Ask::TxEnd { .. } => self.in_attempt = false,
            _ => (),
        }
    }

    // Back to the beginning of the attempt.
    fn try_again(&mut self)
        requires { HasDepth self.old.attempt self.old.callers }
        ensures { self.new ≡ again self.old.attempt self.old }
    {
        if self.in_attempt {
            self.callers.cut(self.kept_depth);
            self.frame.copy_from(&self.kept);
            self.in_attempt = false;
            self.stage = Stage::Runs;
        }
    }

    // The reply to the end of an attempt without its writes.
    fn drop_attempt(&mut self, program: &Program, failure: Failure, reply: Reply)
        requires { CanDrop self.old reply }
        ensures { self.new ≡ dropped program.now failure self.old reply }
    {
        match (failure, reply) {
            (Failure::Raises(_), Reply::Raise(code)) => {
                self.leave_attempt();
                self.raise(program, code);
            }
            (Failure::Raises(_), Reply::Retry) => self.try_again(),
            _ => {
                self.leave_attempt();
                self.fail_on(program, failure);
            }
        }
    }

    // May the instruction not be run inside the attempt, or outside one?
    fn refuses(&self, instr: Instr) -> bool
        ensures { result ≡ is_refused self.now.attempt self.now instr }
    {
        if !self.in_attempt {
            return matches!(instr, Instr::Commit);
        }
        match instr {
            Instr::Ret => self.callers.len() == self.kept_depth,
            _ => instr.is_barred(),
        }
    }

    // The operands go, and the frame goes on there.
    fn go_on(&mut self, taken: usize, to: u16)
        requires { taken ≤ length self.old.frame.stack }
        ensures { self.new ≡ record self.old { frame = record self.old.frame { place = to; stack = drop taken self.old.frame.stack }; stage = Runs } }
    {
        self.frame.go_on(taken, to);
        self.stage = Stage::Runs;
    }

    // A value takes the operands' place.
    fn give(&mut self, taken: usize, value: i64, to: u16)
        requires operands { taken ≤ length self.old.frame.stack }
        requires room { length self.old.frame.stack < OPERANDS + taken }
        ensures { self.new ≡ record self.old { frame = record self.old.frame { place = to; stack = value ∷ drop taken self.old.frame.stack }; stage = Runs } }
    {
        self.frame.go_on(taken, to);
        self.frame.push(value);
        self.stage = Stage::Runs;
    }

    // Two values take the operands' place.
    fn give_two(&mut self, taken: usize, below: i64, top: i64, to: u16)
        requires operands { taken ≤ length self.old.frame.stack }
        requires room { length self.old.frame.stack + 1 < OPERANDS + taken }
        ensures { self.new ≡ record self.old { frame = record self.old.frame { place = to; stack = top ∷ below ∷ drop taken self.old.frame.stack }; stage = Runs } }
    {
        self.frame.go_on(taken, to);
        self.frame.push(below);
        self.frame.push(top);
        self.stage = Stage::Runs;
    }

    // The operands go, and a local gets a value.
    fn set_local(&mut self, taken: usize, local: u16, value: i64, to: u16)
        requires operands { taken ≤ length self.old.frame.stack }
        requires there { local < LOCALS }
        ensures { self.new ≡ record self.old { frame = record self.old.frame { place = to; locals = slice_set self.old.frame.locals local value; stack = drop taken self.old.frame.stack }; stage = Runs } }
    {
        self.frame.set_local(local, value);
        self.frame.go_on(taken, to);
        self.stage = Stage::Runs;
    }

    // The function is called, if there is room for another frame.
    fn call(&mut self, program: &Program, function: u16)
        requires operands { args_of (function_at program.now function) ≤ length self.old.frame.stack }
        requires locals { args_of (function_at program.now function) ≤ LOCALS }
        ensures { self.new ≡ called program.now function self.old }
    {
        if self.callers.len() == CALLERS {
            self.fail(program, Failure::Raises(DEPTH));
            return;
        }
        self.callers
            .call(&mut self.frame, function, program.args(function) as usize);
        self.stage = Stage::Runs;
    }

    // The value goes to the caller, whose call is done.
    fn give_back(&mut self, program: &Program, value: i64)
        requires { CallerIsReady program.now self.old.frame.function self.old.callers }
        ensures { self.new ≡ returned program.now value self.old self.old.callers }
    {
        let args = program.args(self.frame.function()) as usize;
        if self.callers.back(&mut self.frame) {
            let next = self.frame.place() + 1;
            self.frame.go_on(args, next);
            self.frame.push(value);
            self.stage = Stage::Runs;
        } else {
            self.end(Ending::Halt);
        }
    }

    // The monitors after an ask that was answered by Go; no instruction waits any more.
    fn count_monitor(&mut self, ask: Ask)
        requires { self.old.stage ≡ Waits ask }
        ensures { self.new ≡ record self.old { levels = levels_after ask self.old.levels; stage = Runs } }
    {
        self.stage = Stage::Runs;
        match ask {
            Ask::Enter { monitor } => self.levels[monitor as usize] += 1,
            Ask::Exit { monitor } => {
                let level = self.levels[monitor as usize];
                self.levels[monitor as usize] = level.saturating_sub(1);
            }
            _ => (),
        }
    }

    // A monitor is left at the thread's end.
    fn leave(&mut self, ending: Ending, monitor: u16)
        requires { self.old.stage ≡ Leaves ending monitor }
        ensures { self.new ≡ record self.old { levels = levels_after (Exit monitor) self.old.levels } }
    {
        let level = self.levels[monitor as usize];
        self.levels[monitor as usize] = level.saturating_sub(1);
    }

    // The reply to what an instruction asked.
    fn settle(&mut self, program: &Program, ask: Ask, reply: Reply)
        requires waits { self.old.stage ≡ Waits ask }
        requires can { CanTake program.now self.old reply }
        ensures { self.new ≡ settled program.now self.old ask reply }
    {
        match reply {
            Reply::Go => {
                self.turn_attempt(ask);
                self.count_monitor(ask);
                self.finish(program);
            }
            Reply::Value(value) => self.finish_with(program, value),
            Reply::Raise(code) => {
                self.turn_attempt(ask);
                self.fail(program, Failure::Raises(code));
            }
            Reply::Retry => self.try_again(),
            Reply::Start { .. } => (),
        }
    }

    // The next instruction is started, where the steps are not spent.
    fn start(&mut self, program: &Program)
        requires runs { self.old.stage ≡ Runs }
        requires can { CanStart program.now self.old }
        ensures { self.new ≡ started program.now self.old }
    {
        if self.counted == self.limit {
            self.fail(program, Failure::Spends);
            return;
        }
        match program.instr(self.frame.function(), self.frame.place()) {
            Some(instr) => {
                self.counted += 1;
                if self.refuses(instr) {
                    self.fail(program, Failure::Raises(TX_STATE));
                    return;
                }
                let what = outcome(program, self.thread, &self.frame, instr);
                self.carry_out(program, instr, what);
            }
            None => unreachable!(),
        }
    }

    // The first frame begins.
    fn begin(&mut self, program: &Program, function: u16, value: i64)
        requires { args_of (function_at program.now function) < 2 }
        ensures { self.new ≡ begun program.now (Reply.Start function value) self.old }
    {
        self.frame.begin(function, program.args(function), value);
        self.stage = Stage::Runs;
    }

    // The place behind the instruction.
    fn next_place(&self) -> u16
        requires { self.now.frame.place + 1 < 2 ^ 16 }
        ensures { result ≡ self.now.frame.place + 1 }
    {
        self.frame.place() + 1
    }

    // The instruction does what its row says.
    fn carry_out(&mut self, program: &Program, instr: Instr, what: Outcome)
        requires can { CanDo program.now self.old instr what }
        requires counted { EachIndex self.old.levels (λ o. slice_index self.old.levels o < self.old.counted) }
        ensures { self.new ≡ done program.now instr self.old what }
    {
        match what {
            Outcome::Goes => self.go_on(program.needs(instr), self.next_place()),
            Outcome::Gives(a) => self.give(program.needs(instr), a, self.next_place()),
            Outcome::GivesTwo(a, b) => self.give_two(program.needs(instr), a, b, self.next_place()),
            Outcome::Sets(local, a) => self.set_local(
                program.needs(instr),
                local,
                a,
                self.next_place(),
            ),
            Outcome::Jumps(to) => self.go_on(program.needs(instr), to),
            Outcome::Calls(function) => self.call(program, function),
            Outcome::Returns(a) => self.give_back(program, a),
            Outcome::Halts => self.end(Ending::Halt),
            Outcome::Raises(code) => self.fail(program, Failure::Raises(code)),
            Outcome::Asks(ask) => self.stage = Stage::Waits(ask),
        }
    }

    // The instruction that waits is done.
    fn finish(&mut self, program: &Program)
        requires { IsDoable program.now self.old.frame 0 }
        ensures { self.new ≡ answered program.now [] self.old (instr_at program.now self.old.frame.function self.old.frame.place) }
    {
        match program.instr(self.frame.function(), self.frame.place()) {
            Some(instr) => self.go_on(program.needs(instr), self.next_place()),
            None => unreachable!(),
        }
    }

    // The instruction that waits is done, with a value.
    fn finish_with(&mut self, program: &Program, value: i64)
        requires { IsDoable program.now self.old.frame 1 }
        ensures { self.new ≡ answered program.now (value ∷ []) self.old (instr_at program.now self.old.frame.function self.old.frame.place) }
    {
        match program.instr(self.frame.function(), self.frame.place()) {
            Some(instr) => self.give(program.needs(instr), value, self.next_place()),
            None => unreachable!(),
        }
    }
}

// Does the reply fit what an instruction asked?
fn answers(refusal: u8, ask: &Ask, reply: &Reply) -> bool
    ensures { result ≡ answers refusal ask.now reply.now }
{
    match (ask, reply) {
        (
            Ask::Read { .. }
            | Ask::VRead { .. }
            | Ask::Fork { .. }
            | Ask::Alloc { .. }
            | Ask::Input,
            Reply::Value(_),
        ) => { true }
        (
            Ask::Write { .. }
            | Ask::VWrite { .. }
            | Ask::Enter { .. }
            | Ask::Exit { .. }
            | Ask::Join { .. }
            | Ask::Print { .. }
            | Ask::TxBegin
            | Ask::TxEnd { .. },
            Reply::Go,
        ) => true,
        (Ask::TxEnd { .. }, Reply::Retry) => true,
        (Ask::TxEnd { .. }, Reply::Raise(code)) => *code == RACE,
        (Ask::Fork { .. }, Reply::Raise(code)) => *code == THREADS_FULL,
        (Ask::Join { .. }, Reply::Raise(code)) => *code == BAD_THREAD,
        (Ask::Read { .. } | Ask::Write { .. }, Reply::Raise(code)) => *code == refusal,
        (Ask::Exit { .. }, Reply::Raise(code)) => *code == NOT_OWNER,
        (Ask::Alloc { .. }, Reply::Raise(code)) => *code == HEAP_FULL,
        (Ask::Input, Reply::Raise(code)) => *code == INPUT_END,
        _ => false,
    }
}

// The least monitor that was entered and not left.
fn first_entered(levels: &[u32]) -> Option<u16>
    requires { length levels.now ≤ MONITORS }
    ensures value { result ≡ held_monitor levels.now }
    ensures within { IfSome result (λ o. o < MONITORS) }
{
    match first_above_zero(levels) {
        Some(o) => Some(o as u16),
        None => None,
    }
}

fn first_above_zero(xs: &[u32]) -> Option<usize>
    ensures value { result ≡ position (λ x. nat_lt 0 x) xs.now }
    ensures within { IfSome result (λ i. i < length xs.now) }
{
    xs.iter().position(|x| 0 < *x)
}
