// What the steps so far leave.
ghost use Rattle.std.specs.Prelude.{◌≡◌, ◌<◌, ◌^◌, ◌-◌, ◌+◌, ℕ, List, ◌∷◌, ◌++◌, []};
ghost use Rattle.gl_model.specs.TraceSteps.{Step, IsLineItem, IsLineAct, step_fault, act_fault, is_started, is_running};
ghost use Rattle.gl_model.specs.declared.limits.TheConstants.{THREADS};

use crate::union::are_too_many;
use gl_model::{Act, Item, MONITORS, StepFault, THREADS};

const THREAD_ROOM: usize = THREADS as usize;

const MONITOR_ROOM: usize = MONITORS as usize;

// The threads that were forked, those that have ended, and for each monitor its owner and how often it has entered it.
#[derive(Drop)]
pub struct Standing {
    pub forked: [bool; THREAD_ROOM],
    pub ended: [bool; THREAD_ROOM],
    pub holders: [Option<(u8, u32)>; MONITOR_ROOM],
}

impl Standing {
    ghost use Rattle.gl_trace.specs.Tracks.{Tracks, IsWithin};

    pub fn new() -> Self
        ensures tracks { Tracks [] result }
        ensures within { IsWithin 0 result }
    {
        Standing {
            forked: [false; THREAD_ROOM],
            ended: [false; THREAD_ROOM],
            holders: [None; MONITOR_ROOM],
        }
    }

    fn is_started(&self, thread: u8) -> bool
        requires { thread < THREADS }
        ensures { (steps : List Step) → Tracks steps self.now → result ≡ is_started steps thread }
    {
        thread == 0 || self.forked[usize::from(thread)]
    }

    fn is_running(&self, thread: u8) -> bool
        requires { thread < THREADS }
        ensures { (steps : List Step) → Tracks steps self.now → result ≡ is_running steps thread }
    {
        self.is_started(thread) && !self.ended[usize::from(thread)]
    }

    // The fault of an act of a running thread, behind the steps so far.
    fn act_fault(&self, thread: u8, act: Act) -> Option<StepFault>
        requires thread { thread < THREADS }
        requires act { IsLineAct act }
        ensures { (steps : List Step) → Tracks steps self.now → result ≡ act_fault steps thread act }
    {
        match act {
            Act::Fork { child, .. } => {
                if self.is_started(child) {
                    Some(StepFault::CannotFork)
                } else {
                    None
                }
            }
            Act::Join(other) => {
                if !self.is_started(other) {
                    Some(StepFault::NotRunning)
                } else if other == thread {
                    Some(StepFault::JoinSelf)
                } else {
                    None
                }
            }
            Act::Acq(monitor) => {
                let hold = self.holders[usize::from(monitor)];
                match hold {
                    Some((owner, _)) if owner != thread => Some(StepFault::MonitorOwned),
                    _ => None,
                }
            }
            Act::Rel(monitor) => {
                let hold = self.holders[usize::from(monitor)];
                match hold {
                    Some((owner, _)) if owner == thread => None,
                    _ => Some(StepFault::MonitorNotOwned),
                }
            }
            Act::Begin(_)
            | Act::End
            | Act::VRead(_)
            | Act::VWrite(_)
            | Act::Alloc(_)
            | Act::Print
            | Act::Input
            | Act::Fail(_) => None,
        }
    }

    // The fault of an item, behind the steps so far.
    #[inline(always)]
    pub fn fault(&self, thread: u8, item: &Item) -> Option<StepFault>
        requires thread { thread < THREADS }
        requires item { IsLineItem item.now }
        ensures { (steps : List Step) → Tracks steps self.now → result ≡ step_fault steps thread item.now }
    {
        if let Item::Commit { reads, writes } = item {
            if are_too_many(reads, writes) {
                return Some(StepFault::BadSet);
            }
        }
        if !self.is_running(thread) {
            return Some(StepFault::NotRunning);
        }
        match item {
            Item::Act(act) => self.act_fault(thread, *act),
            Item::Access { .. } | Item::Commit { .. } => None,
        }
    }

    fn take_act(&mut self, thread: u8, act: Act)
        requires thread { thread < THREADS }
        requires act { IsLineAct act }
        requires room { IsWithin (2 ^ 32 - 2) self.old }
        ensures tracks { (steps : List Step) → Tracks steps self.old → Tracks (steps ++ (thread, Item.Act act) ∷ []) self.new }
        ensures within { (most : ℕ) → IsWithin most self.old → IsWithin (most + 1) self.new }
    {
        match act {
            Act::Fork { child, .. } => self.forked[usize::from(child)] = true,
            Act::Join(other) => self.ended[usize::from(other)] = true,
            Act::Acq(monitor) => {
                let hold = &mut self.holders[usize::from(monitor)];
                *hold = match *hold {
                    Some((owner, depth)) => Some((owner, depth + 1)),
                    None => Some((thread, 1)),
                };
            }
            Act::Rel(monitor) => {
                let hold = &mut self.holders[usize::from(monitor)];
                *hold = match *hold {
                    Some((owner, depth)) if depth != 1 => Some((owner, depth - 1)),
                    _ => None,
                };
            }
            Act::Begin(_)
            | Act::End
            | Act::VRead(_)
            | Act::VWrite(_)
            | Act::Alloc(_)
            | Act::Print
            | Act::Input
            | Act::Fail(_) => {}
        }
    }

    // Takes a step.
    pub fn take(&mut self, thread: u8, item: &Item)
        requires thread { thread < THREADS }
        requires item { IsLineItem item.now }
        requires room { IsWithin (2 ^ 32 - 2) self.old }
        ensures tracks { (steps : List Step) → Tracks steps self.old → Tracks (steps ++ (thread, item.now) ∷ []) self.new }
        ensures within { (most : ℕ) → IsWithin most self.old → IsWithin (most + 1) self.new }
    {
        match item {
            Item::Act(act) => self.take_act(thread, *act),
            Item::Access { .. } | Item::Commit { .. } => {}
        }
    }
}
