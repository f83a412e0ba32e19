// What the list's state becomes by each act that changes it.
ghost use Rattle.std.specs.Prelude.{◌≡◌, ℕ, ◌+◌, ◌<◌, ◌^◌, Some, length};
ghost use Rattle.gl_model.specs.declared.limits.TheConstants.{THREADS, MONITORS, VOLATILES};
ghost use Rattle.gl_state.specs.declared.state.Stage.TheVariants as stage;
ghost use Rattle.gl_state.specs.Acts.{with_stage, with_word, with_object, with_input, HasRoom, Leaves};
ghost use Rattle.gl_state.specs.Entering.{monitor_of};

use crate::state::{ListState, Stage};

impl ListState {
    /// The thread begins.
    pub fn begin(&mut self, thread: u8)
        requires there { thread < THREADS }
        ensures near { thread < length self.old.threads }
        ensures is { self.new ≡ with_stage self.old thread stage.Running }
    {
        self.threads[thread as usize] = Stage::Running;
    }

    /// The thread ends.
    pub fn end(&mut self, thread: u8)
        requires there { thread < THREADS }
        ensures near { thread < length self.old.threads }
        ensures is { self.new ≡ with_stage self.old thread stage.Ended }
    {
        self.threads[thread as usize] = Stage::Ended;
    }

    /// The thread `child` is forked with a function and its argument.
    pub fn fork(&mut self, child: u8, func: u16, value: i64)
        requires there { child < THREADS }
        ensures near { child < length self.old.threads }
        ensures is { self.new ≡ with_stage self.old child (stage.Forked func value) }
    {
        self.threads[child as usize] = Stage::Forked { func, value };
    }

    /// The thread, which owns the monitor, leaves it once.
    pub fn leave(&mut self, thread: u8, monitor: u16)
        requires there { monitor < MONITORS }
        requires owned { (depth : ℕ) × (monitor_of self.old monitor ≡ Some (thread, depth + 1)) }
        ensures { Leaves thread monitor self.old self.new }
    {
        let place = &mut self.monitors[monitor as usize];
        let depth = match *place {
            None => 0,
            Some((_, depth)) => depth,
        };
        *place = if depth <= 1 {
            None
        } else {
            Some((thread, depth - 1))
        };
    }

    /// The volatile gets this word.
    pub fn write(&mut self, field: u16, value: i64)
        requires there { field < VOLATILES }
        ensures near { field < length self.old.volatiles }
        ensures is { self.new ≡ with_word self.old field value }
    {
        self.volatiles[field as usize] = value;
    }

    /// An object with so many data fields and volatile fields is made, for which there is room.
    pub fn make(&mut self, fields: (u16, u16))
        requires room { HasRoom self.old fields }
        ensures { self.new ≡ with_object self.old fields }
    {
        self.next_object += 1;
        self.next_variable += fields.0;
        self.next_volatile += fields.1;
    }

    /// The next number of the inputs is taken.
    pub fn take_input(&mut self)
        requires few { self.old.inputs_taken < 2 ^ 31 }
        ensures { self.new ≡ with_input self.old }
    {
        self.inputs_taken += 1;
    }
}
