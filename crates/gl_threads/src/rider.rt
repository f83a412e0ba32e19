ghost use Rattle.gl_threads.specs.InRun.{AreAboardIn, IsAboardIn};
ghost use Rattle.std.specs.Prelude.{◌≡◌, ◌<◌, true, map, false, ◌≤◌};
ghost use Rattle.std.specs.List.{list_all};
ghost use Rattle.gl_rule.specs.Objects.{capacity};
ghost use Rattle.gl_threads.specs.Aboard.{IfPace, rider_id};
ghost use Rattle.gl_riders.specs.Threads.{IsSetUp};

use crate::advance::{Went, advance};
use crate::aids::Aids;
use crate::gate::Gate;
use gl_riders::{Lent, Run, Thread};
use gl_table::{Pass, Shared};

// A thread of the program that a worker runs, and whether it is done.
#[derive(Drop)]
pub(crate) struct Rider {
    pub(crate) thread: Thread,
    pub(crate) home: bool,
    // so many rounds it waits, where its last try was not answered, and so many are left
    pub(crate) pause: u8,
    pub(crate) left: u8,
}

// The longest pause of a thread whose tries are not answered.
const LONGEST: u8 = 64;

// The pause after a try more that was not answered.
fn longer(pause: u8) -> u8
    ensures { result ≤ 64 }
{
    if pause == 0 {
        1
    } else if pause < LONGEST {
        pause.saturating_mul(2).min(LONGEST)
    } else {
        LONGEST
    }
}

// What a round of a worker's threads came to.
#[derive(Clone, Copy)]
pub(crate) enum Pace {
    Moved,
    Idle,
    Stopped,
}

// Was the run told to stop?
fn is_stopped(shared: &Shared, pass: &mut Pass) -> bool
    requires table { pass.old.own.table ≡ shared.now.id }
    ensures { pass.new.own ≡ pass.old.own }
{
    shared.stopped(pass)
}

// A try of one thread: where the run is to stop, nothing is done.
fn ride_once<G: Gate>(run: &Run, rider: &mut Rider, aids: &Aids<G>, lent: &mut Lent) -> Pace
    requires set { IsSetUp run.now }
    requires aboard { IsAboardIn run.now rider.old }
    requires window { capacity run.now.table.now.key ≤ lent.old.window }
    ensures aboard { IfPace result (IsAboardIn run.now rider.new) }
    ensures id { rider_id rider.new ≡ rider_id rider.old }
    ensures window { lent.new.window ≡ lent.old.window }
{
    if rider.home {
        return Pace::Idle;
    }
    go_ahead(run, rider, aids, lent)
}

fn go_ahead<G: Gate>(run: &Run, rider: &mut Rider, aids: &Aids<G>, lent: &mut Lent) -> Pace
    requires set { IsSetUp run.now }
    requires aboard { IsAboardIn run.now rider.old }
    requires window { capacity run.now.table.now.key ≤ lent.old.window }
    requires out { rider.old.home ≡ false }
    ensures aboard { IfPace result (IsAboardIn run.now rider.new) }
    ensures id { rider_id rider.new ≡ rider_id rider.old }
    ensures window { lent.new.window ≡ lent.old.window }
{
    if is_stopped(run.table, &mut rider.thread.pass) {
        return Pace::Stopped;
    }
    if rider.left > 0 {
        rider.left -= 1;
        return Pace::Idle;
    }
    match advance(run, &mut rider.thread, aids, lent) {
        Ok(Went::On) => {
            rider.pause = 0;
            Pace::Moved
        }
        Ok(Went::Nowhere) => {
            rider.pause = longer(rider.pause);
            rider.left = rider.pause;
            Pace::Idle
        }
        Ok(Went::Home) => {
            rider.home = true;
            Pace::Moved
        }
        Err(_) => {
            run.table.set_stop(&mut rider.thread.pass);
            Pace::Stopped
        }
    }
}

// So many tries of one thread in a row, where each is answered: enough for an attempt of some accesses, so that those of other threads of
// this worker seldom come between its looks and its end.
const TRIES: usize = 32;

// A turn of one thread: its tries, as long as they are answered.
fn ride<G: Gate>(run: &Run, rider: &mut Rider, aids: &Aids<G>, lent: &mut Lent) -> Pace
    requires set { IsSetUp run.now }
    requires aboard { IsAboardIn run.now rider.old }
    requires window { capacity run.now.table.now.key ≤ lent.old.window }
    ensures aboard { IfPace result (IsAboardIn run.now rider.new) }
    ensures id { rider_id rider.new ≡ rider_id rider.old }
    ensures window { lent.new.window ≡ lent.old.window }
{
    let mut pace = Pace::Idle;
    for _ in 0..TRIES {
        match ride_once(run, rider, aids, lent) {
            Pace::Moved => pace = Pace::Moved,
            Pace::Idle => return pace,
            Pace::Stopped => return Pace::Stopped,
        }
    }
    pace
}

// A turn of each thread.
pub(crate) fn round<G: Gate>(
    run: &Run,
    riders: &mut Vec<Rider>,
    aids: &Aids<G>,
    lent: &mut Lent,
) -> Pace
    requires set { IsSetUp run.now }
    requires aboard { AreAboardIn run.now riders.old.items }
    requires window { capacity run.now.table.now.key ≤ lent.old.window }
    ensures aboard { IfPace result (AreAboardIn run.now riders.new.items) }
    ensures ids { map rider_id riders.new.items ≡ map rider_id riders.old.items }
    ensures window { lent.new.window ≡ lent.old.window }
{
    let mut moved = false;
    for i in 0..riders.len() {
        match ride(run, &mut riders[i], aids, lent) {
            Pace::Moved => moved = true,
            Pace::Idle => {}
            Pace::Stopped => return Pace::Stopped,
        }
    }
    if moved { Pace::Moved } else { Pace::Idle }
}

// Are all threads done?
pub(crate) fn are_home(riders: &Vec<Rider>) -> bool
    ensures { result ≡ list_all (λ r. r.home) riders.now.items }
{
    riders.iter().all(|rider| rider.home)
}
