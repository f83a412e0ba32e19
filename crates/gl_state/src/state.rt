// The list's state.
ghost use Rattle.std.specs.Prelude.{◌≡◌, ℕ, ◌<◌, IfOk, IfSome, Some, None};
ghost use Rattle.gl_state.specs.Starting.{first_state};
ghost use Rattle.gl_model.specs.declared.limits.TheConstants.{MONITORS};
ghost use Rattle.gl_state.specs.Entering.{Enters, IsShallow, IsOfOther, monitor_of};

use std::alloc::{AllocError, Global};
use std::marker::Model;

/// What becomes of a thread.
#[derive(Clone, Copy)]
pub enum Stage {
    Never,
    Forked { func: u16, value: i64 },
    Running,
    Ended,
}

#[derive(Drop)]
pub struct ListState {
    pub(crate) threads: Vec<Stage>,
    pub(crate) monitors: Vec<Option<(u8, u64)>>,
    pub(crate) volatiles: Vec<i64>,
    pub(crate) next_object: u16,
    pub(crate) next_variable: u16,
    pub(crate) next_volatile: u16,
    pub(crate) inputs_taken: u32,
}

impl Model for ListState {
    ghost use Rattle.std.specs.Prelude.{◌≡◌, length};
    ghost use Rattle.gl_model.specs.declared.limits.TheConstants.{THREADS, MONITORS, VOLATILES};
    ghost use Rattle.gl_state.specs.ListView.{ListView};

    ghost Value = { ListView };

    ghost view = { λ s. record { threads = s.threads.items; monitors = s.monitors.items; volatiles = s.volatiles.items; next_object = s.next_object; next_variable = s.next_variable; next_volatile = s.next_volatile; inputs_taken = s.inputs_taken } };

    ghost invariant = { λ s. (length s.threads.items ≡ THREADS) × (length s.monitors.items ≡ MONITORS) × (length s.volatiles.items ≡ VOLATILES) };
}

fn first_threads(alloc: Global, main: u16) -> Result<Vec<Stage>, AllocError>
    ensures { IfOk result (λ v. v.items ≡ (first_state main).threads) }
{
    let mut threads = Vec::with_capacity(alloc, 16)?;
    threads.push_reserved(Stage::Forked {
        func: main,
        value: 0,
    });
    for _ in 0..15u64 {
        threads.push_reserved(Stage::Never);
    }
    Ok(threads)
}

fn free_monitors(alloc: Global) -> Result<Vec<Option<(u8, u64)>>, AllocError>
    ensures { IfOk result (λ v. v.items ≡ (first_state 0).monitors) }
{
    let mut monitors = Vec::with_capacity(alloc, 256)?;
    for _ in 0..256u64 {
        monitors.push_reserved(None);
    }
    Ok(monitors)
}

fn zero_words(alloc: Global) -> Result<Vec<i64>, AllocError>
    ensures { IfOk result (λ v. v.items ≡ (first_state 0).volatiles) }
{
    let mut words = Vec::with_capacity(alloc, 256)?;
    for _ in 0..256u64 {
        words.push_reserved(0);
    }
    Ok(words)
}

impl ListState {
    /// The state before any event: thread 0 is forked with the function of main, and nothing else is there.
    pub fn new(alloc: Global, main: u16) -> Result<ListState, AllocError>
        ensures { IfOk result (λ s. s ≡ first_state main) }
    {
        Ok(ListState {
            threads: first_threads(alloc, main)?,
            monitors: free_monitors(alloc)?,
            volatiles: zero_words(alloc)?,
            next_object: 0,
            next_variable: 0,
            next_volatile: 0,
            inputs_taken: 0,
        })
    }

    /// The other thread that owns the monitor, if there is one.
    pub fn other_owner(&self, thread: u8, monitor: u16) -> Option<u8>
        requires there { monitor < MONITORS }
        ensures some { IfSome result (λ owner. IsOfOther self.now monitor thread owner) }
        ensures none { result ≡ None → (m : ℕ × ℕ) → monitor_of self.now monitor ≡ Some m → m.0 ≡ thread }
    {
        match self.monitors[monitor as usize] {
            None => None,
            Some((owner, _)) => {
                if owner == thread {
                    return None;
                }
                Some(owner)
            }
        }
    }

    /// The thread enters the monitor once more.
    pub fn enter(&mut self, thread: u8, monitor: u16)
        requires there { monitor < MONITORS }
        requires shallow { IsShallow self.old monitor }
        requires free { (m : ℕ × ℕ) → monitor_of self.old monitor ≡ Some m → m.0 ≡ thread }
        ensures { Enters thread monitor self.old self.new }
    {
        let place = &mut self.monitors[monitor as usize];
        let depth = match *place {
            None => 0,
            Some((_, depth)) => depth,
        };
        *place = Some((thread, depth + 1));
    }
}
