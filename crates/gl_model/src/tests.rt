ghost use Rattle.std.specs.Prelude.{◌≡◌};
ghost use Rattle.gl_model.specs.declared.event.Event.TheVariants.{Act as Does};

use super::*;
use std::test::Fail;

fn variables(ids: &[u16]) -> VarSet {
    let mut set = VarSet::empty();
    for id in ids {
        if *id < VARIABLES {
            let _full = set.insert(*id);
        }
    }
    set
}

fn act(thread: u8, act: Act) -> Stamp
    ensures { result ≡ record { thread = thread; event = Does act } }
{
    Stamp {
        thread,
        event: Event::Act(act),
    }
}

// Whether the next access of a thread is ordered after an earlier one, by the lockset of that: the traces of the user's guide.
#[test]
fn locksets(rt: HostRuntime) -> Result<(), Fail> {
    let mut forked_before = Lockset::start_plain(0);
    assert!(rt; !forked_before.has(Element::Thread(1)), "no event between");
    forked_before.step(&act(0, Act::Fork { child: 1, func: 0 }));
    forked_before.step(&act(1, Act::Begin(0)));
    assert!(rt; forked_before.has(Element::Thread(1)), "a fork between");

    let mut guarded_twice = Lockset::start_plain(0);
    guarded_twice.step(&act(0, Act::Rel(0)));
    guarded_twice.step(&act(1, Act::Acq(0)));
    guarded_twice.step(&act(1, Act::Acq(1)));
    guarded_twice.step(&act(1, Act::Rel(0)));
    assert!(rt; guarded_twice.has(Element::Thread(1)), "the first monitor");
    guarded_twice.step(&act(1, Act::Rel(1)));
    guarded_twice.step(&act(2, Act::Acq(1)));
    assert!(rt; guarded_twice.has(Element::Thread(2)), "the second monitor");
    assert!(rt; !guarded_twice.has(Element::Thread(3)), "a third thread");

    let mut joined = Lockset::start_plain(1);
    joined.step(&act(1, Act::End));
    joined.step(&act(0, Act::Join(1)));
    assert!(rt; joined.has(Element::Thread(0)), "a join");

    let mut two_writes = Lockset::start_plain(0);
    two_writes.step(&act(0, Act::VWrite(0)));
    two_writes.step(&act(1, Act::VWrite(0)));
    assert!(rt; !two_writes.has(Element::Thread(1)), "two volatile writes");
    two_writes.step(&act(1, Act::VRead(0)));
    assert!(rt; two_writes.has(Element::Thread(1)), "a volatile read");

    let first = variables(&[2]);
    let second = variables(&[5, 2]);
    let third = variables(&[5, 3]);
    let mut committed = Lockset::start_plain(0);
    committed.step(&Stamp {
        thread: 0,
        event: Event::Commit(first),
    });
    let mut other = committed;
    committed.take(&Stamp {
        thread: 1,
        event: Event::Commit(second),
    });
    assert!(rt;
        committed.has(Element::Thread(1)),
        "a commit with a common variable"
    );
    other.take(&Stamp {
        thread: 1,
        event: Event::Commit(third),
    });
    assert!(rt; !other.has(Element::Thread(1)), "a commit with none");
    let commit = Lockset::start_commit(0, &first);
    assert!(rt;
        commit.has(Element::Tx) && commit.has(Element::Var(2)),
        "a commit's own"
    );
    Ok(())
}

#[test]
fn sets_and_lists(rt: HostRuntime) -> Result<(), Fail> {
    let alloc = rt.alloc();
    let set = variables(&[9, 1023, 3, 9]);
    assert_eq!(rt; set.len(), 3);
    assert!(rt; set.get(0) == Some(3) && set.get(2) == Some(1023) && set.get(3).is_none());
    assert!(rt; set.has(9) && !set.has(4));
    assert!(rt; set.meets(&variables(&[4, 9])) && !set.meets(&variables(&[4])));
    let mut full = variables(&[0, 1, 2, 3, 4, 5, 6, 7, 8, 9, 10, 11, 12, 13, 14, 15]);
    assert!(rt; full.insert(7) == Ok(()) && full.insert(16) == Err(Full));

    let mut held = Held::empty();
    for monitor in [9, 3, 7, 5, 1] {
        held.add(monitor);
    }
    assert!(rt; matches!(held.monitors(), [1, 3, 5, 7]));
    let mut other = Held::empty();
    other.add(9);
    assert!(rt; !held.shares(&other));
    other.add(5);
    assert!(rt; held.shares(&other));

    let mut inputs = Inputs::empty(alloc);
    inputs.push(-4)?;
    assert!(rt; inputs.get(0) == Some(-4) && inputs.get(1).is_none() && inputs.len() == 1);
    let mut classes = Classes::empty(alloc);
    classes.push(2, 1)?;
    assert!(rt; classes.get(0) == Some((2, 1)) && classes.get(1).is_none() && classes.len() == 1);
    Ok(())
}

#[test]
fn parts(rt: HostRuntime) {
    let mut looks = Looks::empty();
    let late = Look {
        var: 5,
        value: 1,
        nth: 0,
    };
    let early = Look {
        var: 2,
        value: -1,
        nth: 3,
    };
    assert!(rt; looks.put(late) == Ok(()) && looks.put(early) == Ok(()));
    let again = Look {
        var: 5,
        value: 7,
        nth: 1,
    };
    assert!(rt; looks.put(again) == Ok(()));
    assert!(rt; looks.at(0) == Some(early) && looks.at(1) == Some(again) && looks.at(2).is_none());
    assert!(rt; looks.of(5) == Some(again) && looks.of(4).is_none());

    let mut writes = Pairs::empty();
    let mut numbers = Numbers::empty();
    for var in 0..TX_VARIABLES {
        let var = 100 - var as u16;
        assert!(rt; writes.put(Pair { var, value: 2 }) == Ok(()));
        assert!(rt; numbers.put(Number { var, nth: 4 }) == Ok(()));
    }
    assert!(rt; writes.at(0) == Some(Pair { var: 85, value: 2 }));
    assert!(rt; writes.put(Pair { var: 7, value: 0 }) == Err(Full));
    assert!(rt; writes.put(Pair { var: 90, value: 0 }) == Ok(()));
    assert!(rt; writes.of(90) == Some(Pair { var: 90, value: 0 }));
    assert!(rt; numbers.put(Number { var: 7, nth: 0 }) == Err(Full));
    assert!(rt; numbers.of(100) == Some(Number { var: 100, nth: 4 }) && numbers.at(16).is_none());
}

#[test]
fn records(rt: HostRuntime) -> Result<(), Fail> {
    let mut made = Record::empty(rt.alloc());
    let begin = Entry::Sync {
        at: 1,
        act: Act::Begin(0),
        value: 0,
    };
    assert!(rt; made.push(1, begin).is_ok());
    assert!(rt; made.push(0, Entry::Trim { low: 3 }).is_ok());
    assert!(rt; made.push(1, Entry::Over(Ending::Halt)).is_ok());
    assert!(rt; matches!(made.thread(0), Some([Entry::Trim { low: 3 }])));
    assert!(rt;
        matches!(
            made.thread(1),
            Some([Entry::Sync { at: 1, .. }, Entry::Over(Ending::Halt)])
        )
    );
    assert!(rt; made.thread(2).is_none());
    Ok(())
}
