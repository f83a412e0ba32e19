ghost use Rattle.gl_threads.specs.InRun.{AreAboardIn, AreFinishedIn, CrewIsDoneIn, IsReadyIn};
ghost use Rattle.std.specs.Prelude.{◌≡◌, ◌≤◌, true, false, map};
ghost use Rattle.gl_rule.specs.Objects.{capacity};
ghost use Rattle.gl_threads.specs.Aboard.{rider_id};
ghost use Rattle.gl_riders.specs.Threads.{IsSetUp};

use crate::aids::Aids;
use crate::gate::Gate;
use crate::rider::{Pace, Rider, are_home, round};
use crate::roll::RollCall;
use gl_riders::{Lent, Run};
use std::sync::Wait;
use std::sync::atomic::AtomicU64;
use std::thread;
use std::time::Duration;

// The threads of one worker, what it lends them, and whether it stopped before they were done.
#[derive(Drop)]
pub(crate) struct Crew {
    pub(crate) riders: Vec<Rider>,
    pub(crate) lent: Lent,
    pub(crate) stopped: bool,
}

// So many idle rounds in a row only yield.
const YIELDS: u32 = 64;

// Lets other threads run, after so many idle rounds.
fn rest<R: Wait>(rt: &R, idle: u32) {
    if idle < YIELDS {
        thread::yield_now();
    } else {
        AtomicU64::new(0).park_timeout(rt, 0, Duration::from_micros(100));
    }
}

// A worker's rounds, until its threads are done or the run stops, which it does too where a worker waits in vain for one that has not
// begun.
pub(crate) fn run_crew<G: Gate, R: Wait>(
    rt: &R,
    crew: &mut Crew,
    run: &Run,
    aids: &Aids<G>,
    roll: &RollCall,
)
    requires set { IsSetUp run.now }
    requires ready { IsReadyIn run.now crew.old }
    ensures done { CrewIsDoneIn run.now crew.old crew.new }
{
    if !roll.begin() {
        crew.stopped = true;
        return;
    }
    let done = run_riders(rt, crew, run, aids, roll);
    crew.stopped = !done;
}

// The same, which says whether all are done.
fn run_riders<G: Gate, R: Wait>(
    rt: &R,
    crew: &mut Crew,
    run: &Run,
    aids: &Aids<G>,
    roll: &RollCall,
) -> bool
    requires set { IsSetUp run.now }
    requires aboard { AreAboardIn run.now crew.old.riders.items }
    requires window { capacity run.now.table.now.key ≤ crew.old.lent.window }
    ensures done { result ≡ true → AreFinishedIn run.now crew.new.riders.items }
    ensures ids { map rider_id crew.new.riders.items ≡ map rider_id crew.old.riders.items }
{
    let mut idle = 0u32;
    for turn in rt.forever() {
        let _turn = turn;
        if are_home(&crew.riders) {
            return true;
        }
        match round(run, &mut crew.riders, aids, &mut crew.lent) {
            Pace::Moved => idle = 0,
            Pace::Idle => {
                if roll.gives_up(idle) {
                    return false;
                }
                rest(rt, idle);
                idle = idle.saturating_add(1);
            }
            Pace::Stopped => return false,
        }
    }
    unreachable!()
}
