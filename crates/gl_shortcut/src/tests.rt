ghost use Rattle.std.specs.Prelude.{◌≡◌};
ghost use Rattle.gl_model.specs.declared.event.Event.TheVariants.{Act as Does};

use super::*;
use gl_model::{Act, Event, Held, Info, Lockset, MONITORS, Question, Stamp, VarSet};
use std::test::Fail;

fn held(monitors: &[u16]) -> Held {
    let mut held = Held::empty();
    for monitor in monitors {
        if *monitor < MONITORS {
            held.add(*monitor);
        }
    }
    held
}

// A write of the thread that owns these monitors, before the first event.
fn write_of(thread: u8, commit: bool, monitors: &[u16]) -> Info
    ensures { result.thread ≡ thread }
{
    Info {
        thread,
        write: true,
        commit,
        held: held(monitors),
        pos: 0,
        set: Lockset::start_plain(0),
    }
}

// A read of the thread that owns these monitors.
fn read_of(thread: u8, commit: bool, monitors: &[u16]) -> Question
    ensures { result.thread ≡ thread }
{
    Question {
        thread,
        write: false,
        commit: if commit { Some(VarSet::empty()) } else { None },
        held: held(monitors),
    }
}

fn act(thread: u8, act: Act) -> Stamp
    ensures { result ≡ record { thread = thread; event = Does act } }
{
    Stamp {
        thread,
        event: Event::Act(act),
    }
}

#[test]
fn offered_functions(rt: HostRuntime) -> Result<(), Fail> {
    let plain = write_of(0, false, &[]);
    assert!(rt; same_thread(&plain, &read_of(0, false, &[])));
    assert!(rt; !same_thread(&plain, &read_of(1, false, &[])));
    let commit = write_of(0, true, &[]);
    assert!(rt; both_commits(&commit, &read_of(1, true, &[])));
    assert!(rt; !both_commits(&commit, &read_of(1, false, &[])));
    let guarded = write_of(0, false, &[3, 5]);
    assert!(rt; shared_monitor(&guarded, &read_of(1, false, &[5, 9])));
    assert!(rt; !shared_monitor(&guarded, &read_of(1, false, &[4, 9])));
    let q = read_of(1, false, &[]);
    let handed = [
        act(0, Act::Rel(3)),
        act(2, Act::Acq(4)),
        act(1, Act::Acq(3)),
    ];
    assert!(rt; two_threads(&plain, &q, &handed));
    // the third thread hands it on, and is not looked at
    let through_third = [
        act(0, Act::VWrite(3)),
        act(2, Act::VRead(3)),
        act(2, Act::VWrite(4)),
        act(1, Act::VRead(4)),
    ];
    assert!(rt; !two_threads(&plain, &q, &through_third));
    Ok(())
}

fn kept(cuts: Result<Cuts, Cuts>) -> Cuts {
    match cuts {
        Ok(cuts) | Err(cuts) => cuts,
    }
}

#[test]
fn four_and_no_fifth(rt: HostRuntime) -> Result<(), Fail> {
    let plain = write_of(0, false, &[]);
    let q = read_of(0, false, &[]);
    assert!(rt; !Cuts::none().ask_early(&plain, &q));
    let one = kept(Cuts::none().with(ShortCut::late(two_threads)));
    assert!(rt; one.ask_late(&plain, &q, &[]));
    let two = kept(one.with(ShortCut::early(both_commits, Sure::BothCommits)));
    let three = kept(two.with(ShortCut::early(shared_monitor, Sure::SharedMonitor)));
    assert!(rt; !three.ask_early(&plain, &q));
    let four = three.with(ShortCut::early(same_thread, Sure::SameThread));
    assert!(rt; four.is_ok());
    let fifth = kept(four).with(ShortCut::early(same_thread, Sure::Never));
    assert!(rt; fifth.is_err());
    assert!(rt; kept(fifth).ask_early(&plain, &q));
    Ok(())
}
