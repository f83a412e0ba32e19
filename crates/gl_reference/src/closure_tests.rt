use super::*;
use gl_model::{Act, Event, Stamp, VARIABLES, VarSet};
use std::test::Fail;

fn variables(ids: &[u16]) -> VarSet {
    let mut set = VarSet::empty();
    for id in ids {
        if *id < VARIABLES {
            let _full = set.insert(*id);
        }
    }
    set
}

fn act(thread: u8, act: Act) -> Stamp {
    Stamp {
        thread,
        event: Event::Act(act),
    }
}

fn plain(thread: u8, block: usize, var: u16, write: bool) -> Performed {
    Performed {
        access: Access {
            thread,
            block,
            variables: None,
        },
        var,
        write,
    }
}

// A write after reads of two threads, of which one is ordered before it; and a commit after a write and a commit of another thread.
#[test]
fn races(rt: HostRuntime) -> Result<(), Fail> {
    let alloc = rt.alloc();
    let fork = Act::Fork { child: 1, func: 0 };
    let other = Act::Fork { child: 2, func: 0 };
    let events = [
        act(0, Act::Begin(0)),
        act(0, fork),
        act(1, Act::Begin(0)),
        act(0, other),
        act(2, Act::Begin(0)),
        act(1, Act::VWrite(0)),
        act(0, Act::VRead(0)),
    ];
    let write = Next {
        thread: 0,
        var: 3,
        write: true,
        variables: None,
    };
    let ordered = plain(1, 2, 3, false);
    let unordered = plain(2, 4, 3, false);
    assert!(rt;
        is_racy(alloc, &events, &[unordered, ordered], &write)?,
        "the earlier reader"
    );
    assert!(rt;
        !is_racy(alloc, &events, &[ordered], &write)?,
        "the latest reader alone"
    );

    let first = variables(&[2]);
    let commits = [
        act(0, Act::Begin(0)),
        act(0, fork),
        act(1, Act::Begin(0)),
        Stamp {
            thread: 0,
            event: Event::Commit(first),
        },
    ];
    let written = plain(0, 1, 5, true);
    let with_both = variables(&[2, 5]);
    let with_other = variables(&[3, 5]);
    let writes = variables(&[5]);
    assert!(rt;
        first_racy(alloc, &commits, &[written], 1, with_both, &writes)?.is_none(),
        "a common variable"
    );
    assert!(rt;
        first_racy(alloc, &commits, &[written], 1, with_other, &writes)? == Some(5),
        "none"
    );
    Ok(())
}
