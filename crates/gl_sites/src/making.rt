// What made each entry of a list.
ghost use Rattle.std.specs.Prelude.{◌≡◌, ◌≤◌, IfOk, map};
ghost use Rattle.gl_model.specs.Entries.{seen};
ghost use Rattle.gl_model.specs.declared.limits.TheConstants.{TX_VARIABLES};
ghost use Rattle.gl_bytecode.specs.Runs.{Runs, touched};
ghost use Rattle.gl_follow.specs.Following.{EachBeginsRight};
ghost use Rattle.gl_follow.specs.Steps.{CanGo, EndsWithOver};
ghost use Rattle.gl_sites.specs.Makers.{AreMakers, HasGone, maker_by, maker_of};

use gl_bytecode::Program;
use gl_follow::Replay;
use gl_model::Entry;
use gl_vm::Site;
use std::alloc::{AllocError, Global};

/// What made an entry of a thread's list.
#[derive(Clone, Copy, Debug, PartialEq, Eq)]
pub enum Maker {
    /// An instruction of the program.
    Instruction(Site),
    /// The thread's machine without an instruction, as at its beginning and at its end.
    NoInstruction,
    /// No machine: it tells how far the list was trimmed, or how the thread ended.
    Note,
}

/// What one exchange along a list came to.
#[derive(Clone, Copy)]
pub(crate) enum Went {
    NoFurther,
    Quietly,
    By(Maker),
}

// What made an entry that answers a machine which stands at this instruction, or at none.
fn maker_by(site: Option<Site>) -> Maker
    ensures { result ≡ maker_by site }
{
    match site {
        Some(site) => Maker::Instruction(site),
        None => Maker::NoInstruction,
    }
}

// The same, where the entry may be a note.
fn maker_of(site: Option<Site>, entry: &Entry) -> Maker
    ensures { result ≡ maker_of site (seen entry.now) }
{
    match entry {
        Entry::Trim { .. } | Entry::Over(_) => Maker::Note,
        Entry::Sync { .. } | Entry::Commit { .. } | Entry::Plain { .. } | Entry::Abort { .. } => {
            maker_by(site)
        }
    }
}

// Goes on by one exchange.
fn go_on(replay: &mut Replay, program: &Program, rest: &[Entry]) -> Went
    requires can { CanGo program.now replay.old }
    requires right { EachBeginsRight program.now (map seen rest.now) }
    ensures few { touched replay.old ≤ TX_VARIABLES }
    ensures turned { HasGone program.now replay.old (map seen rest.now) replay.new result }
    ensures can { CanGo program.now replay.new }
{
    replay.keeps();
    if replay.goes_quietly(program, rest) {
        return Went::Quietly;
    }
    let site = replay.site();
    match rest.first() {
        Some(entry) => {
            if replay.passes(program, entry) {
                Went::By(maker_of(site, entry))
            } else {
                Went::NoFurther
            }
        }
        None => Went::NoFurther,
    }
}

/// What made each entry of a thread's list: the thread's machine is driven along it, once. The only error is want of memory.
pub fn makers(
    alloc: Global,
    program: &Program,
    thread: u8,
    steps: u32,
    list: &[Entry],
) -> Result<Vec<Maker>, AllocError>
    requires right { EachBeginsRight program.now (map seen list.now) }
    requires over { EndsWithOver (map seen list.now) }
    requires runs { Runs program.now steps thread (map seen list.now) }
    ensures { IfOk result (λ makers. AreMakers program.now steps thread (map seen list.now) makers.items) }
{
    let mut replay = Replay::new(alloc, program, thread, steps)?;
    let mut makers = Vec::new(alloc);
    loop {
        let rest = list.split_at(makers.len()).1;
        match go_on(&mut replay, program, rest) {
            Went::Quietly => {}
            Went::By(maker) => makers.push(maker)?,
            Went::NoFurther => {
                makers.push(Maker::Note)?;
                return Ok(makers);
            }
        }
    }
}
