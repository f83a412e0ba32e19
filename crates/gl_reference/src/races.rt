ghost use Rattle.std.specs.Prelude.{◌↔◌, true, IsTrue, IfOk, None};
ghost use Rattle.gl_reference.specs.Races.{Conflicts, RacesWith, IsRacyNext, IsPartOf, IsFirstRacy};

use crate::reach::{Access, happens_before_next};
use gl_model::{Stamp, VarSet};
use std::alloc::{AllocError, Global};

/// A performed access of one variable; a commit is one for each of its variables.
#[derive(Clone, Copy)]
pub struct Performed {
    pub access: Access,
    pub var: u16,
    pub write: bool,
}

/// A next access of one variable, by a thread behind all events so far.
#[derive(Clone, Copy)]
pub struct Next {
    pub thread: u8,
    pub var: u16,
    pub write: bool,
    /// The variables of the commit that it is part of, if it is.
    pub variables: Option<VarSet>,
}

// Whether both are of one variable and of two threads, one writes, and they are not both parts of commits.
fn conflicts(earlier: &Performed, next: &Next) -> bool
    ensures { IsTrue result ↔ Conflicts earlier.now next.now }
{
    let same = earlier.var == next.var;
    let another = earlier.access.thread != next.thread;
    let writes = earlier.write | next.write;
    let plain = earlier.access.variables.is_none() | next.variables.is_none();
    same & another & writes & plain
}

fn races_with(
    alloc: Global,
    events: &[Stamp],
    earlier: &Performed,
    next: &Next,
) -> Result<bool, AllocError>
    ensures { IfOk result (λ races. IsTrue races ↔ RacesWith events.now next.now earlier.now) }
{
    if !conflicts(earlier, next) {
        return Ok(false);
    }
    let ordered = happens_before_next(alloc, events, &earlier.access, next.thread, next.variables)?;
    Ok(!ordered)
}

/// Whether the next access races with one of the performed ones: it conflicts with it, and that one does not happen before it.
pub fn is_racy(
    alloc: Global,
    events: &[Stamp],
    performed: &[Performed],
    next: &Next,
) -> Result<bool, AllocError>
    ensures { IfOk result (λ racy. IsTrue racy ↔ IsRacyNext events.now performed.now next.now) }
{
    for earlier in performed {
        if races_with(alloc, events, earlier, next)? {
            return Ok(true);
        }
    }
    Ok(false)
}

/// The least variable on which a next commit races with one of the performed accesses.
pub fn first_racy(
    alloc: Global,
    events: &[Stamp],
    performed: &[Performed],
    thread: u8,
    variables: VarSet,
    writes: &VarSet,
) -> Result<Option<u16>, AllocError>
    ensures { IfOk result (λ found. IsFirstRacy events.now performed.now thread variables writes.now found) }
{
    for var in variables.ids() {
        let next = part_of(thread, *var, variables, writes);
        if is_racy(alloc, events, performed, &next)? {
            return Ok(Some(*var));
        }
    }
    Ok(None)
}

// The access of the variable that is part of the commit.
fn part_of(thread: u8, var: u16, variables: VarSet, writes: &VarSet) -> Next
    ensures { IsPartOf thread variables writes.now var result }
{
    Next {
        thread,
        var,
        write: writes.has(var),
        variables: Some(variables),
    }
}
