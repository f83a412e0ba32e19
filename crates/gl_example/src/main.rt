//! Embeds the detector: judges the steps of a few threads and says what comes of each access.
#![tactic(auto)]

ghost use Rattle.std.specs.Prelude.{◌≡◌, ◌<◌, [], ◌∷◌, IfOk};
ghost use Rattle.gl_model.specs.declared.limits.TheConstants.{VARIABLES};
ghost use Rattle.gl_model.specs.declared.row.Item.TheVariants.{Access, Commit};
ghost use Rattle.gl_example.specs.Steps.{IsTrace, AreJudged};

use gl_core::Detector;
use gl_model::{Act, Item, Judged, VarSet};
use gl_shortcut::Cuts;
use std::alloc::{AllocError, Global};
use std::io;

// What the detector says of each step.
fn judge_all(alloc: Global, steps: &[(u8, Item)]) -> Result<Vec<Judged>, AllocError>
    requires trace { IsTrace steps.now }
    ensures judged { IfOk result (λ judged. AreJudged steps.now judged.items) }
{
    let cuts = Cuts::none();
    let mut detector = Detector::new(alloc)?;
    let mut judged = Vec::new(alloc);
    for step in steps {
        let verdict = detector.step(step.0, &step.1, &cuts)?;
        judged.push(verdict)?;
    }
    Ok(judged)
}

// A read or a write of a variable.
fn access(var: u16, write: bool) -> Item
    ensures { result ≡ Access var write }
{
    Item::Access { var, write }
}

// A transaction that reads one variable and writes one.
fn commit(read: u16, written: u16) -> Item
    requires read { read < VARIABLES }
    requires written { written < VARIABLES }
    ensures { result ≡ Commit (read ∷ []) (written ∷ []) }
{
    let mut reads = VarSet::empty();
    let mut writes = VarSet::empty();
    let _ = reads.insert(read);
    let _ = writes.insert(written);
    Item::Commit { reads, writes }
}

fn main(rt: HostRuntime) -> io::Result<()> {
    let steps = [
        (0, Item::Act(Act::Fork { child: 1, func: 0 })),
        (0, Item::Act(Act::Acq(5))),
        (0, access(7, true)),
        (0, Item::Act(Act::Rel(5))),
        (1, access(7, false)),
        (1, Item::Act(Act::Acq(5))),
        (1, access(7, false)),
        (1, commit(7, 8)),
    ];
    let judged = judge_all(rt.alloc(), &steps)?;
    for (step, verdict) in steps.iter().zip(judged.iter()) {
        match verdict {
            Judged::NoAccess => {}
            Judged::Performed => println!(rt; "thread {}: go on", step.0)?,
            Judged::Raised { var } => println!(rt; "thread {}: race on {var}", step.0)?,
        }
    }
    Ok(())
}
