// What refused commits learn from the commits that are before them on their variables.
ghost use Rattle.std.specs.Prelude.{◌≡◌, ℕ, ◌<◌, ◌+◌, ◌==◌, All, List, IfOk, OnOk, length, max, slice_get, Some, if◌then◌else◌};
ghost use Rattle.gl_core.specs.Cells.{at, cell};
ghost use Rattle.gl_model.specs.declared.limits.TheConstants.{THREADS, VARIABLES};
ghost use Rattle.gl_raised.specs.Accesses.{IsWithin};
ghost use Rattle.gl_raised.specs.Earlier.{ClaimsKnow, VariablesKnow, handed_on};
ghost use Rattle.gl_raised.specs.declared.access.Access.{Access as AnAccess};

use crate::access::Access;
use crate::rows::ALL;
use gl_model::VARIABLES;
use std::alloc::{AllocError, Global};

// A clock that knows what both know.
fn join(into: &mut [u32; ALL], from: &[u32; ALL])
    ensures { (u : ℕ) → at into.new u ≡ max (at into.old u) (at from.now u) }
{
    for u in 0..ALL {
        into[u] = into[u].max(from[u]);
    }
}

// One clock of a table joined with a clock.
fn raise(table: &mut Vec<[u32; ALL]>, i: usize, by: &[u32; ALL])
    requires { i < length table.old.items }
    ensures long { length table.new.items ≡ length table.old.items }
    ensures joined { (j u : ℕ) → cell table.new.items j u ≡ (if j == i then max (cell table.old.items j u) (at by.now u) else cell table.old.items j u) }
{
    let mut clock = table[i];
    join(&mut clock, by);
    table[i] = clock;
}

// What a commit hands on, where these are the clocks of the blocks.
fn handed_on(rows: &[[u32; ALL]], by: &Access) -> [u32; ALL]
    requires { by.now.thread < THREADS }
    ensures { (u : ℕ) → at result u ≡ handed_on rows.now by.now u }
{
    let own = by.thread as usize;
    let mut clock = no_clock();
    if let Some(row) = rows.get(by.tick as usize) {
        clock = *row;
    }
    clock[own] = clock[own].saturating_sub(1);
    clock
}

// A clock that knows nothing.
pub(crate) fn no_clock() -> [u32; ALL]
    ensures { (u : ℕ) → at result u ≡ 0 }
{
    [0; ALL]
}

// A table of so many clocks that know nothing.
fn no_clocks(alloc: Global, count: usize) -> Result<Vec<[u32; ALL]>, AllocError>
    ensures long { IfOk result (λ table. length table.items ≡ count) }
    ensures zero { IfOk result (λ table. (x u : ℕ) → cell table.items x u ≡ 0) }
{
    let mut table = Vec::new(alloc);
    for _ in 0..count {
        table.push(no_clock())?;
    }
    Ok(table)
}

// A commit is handed on to its variable.
fn hand_on(rows: &[[u32; ALL]], learned: &mut Vec<[u32; ALL]>, access: &Access)
    requires thread { access.now.thread < THREADS }
    requires variables { access.now.var < length learned.old.items }
    ensures long { length learned.new.items ≡ length learned.old.items }
    ensures learned { (us : List AnAccess) (i : ℕ) → slice_get us i ≡ Some access.now → VariablesKnow rows.now us i learned.old.items → VariablesKnow rows.now us (i + 1) learned.new.items }
{
    if access.commit & access.performed {
        raise(learned, access.var as usize, &handed_on(rows, access));
    }
}

// A refused commit learns what its variable knows.
fn learn_one(learned: &[[u32; ALL]], known: &mut Vec<[u32; ALL]>, access: &Access)
    requires claim { access.now.claim < length known.old.items }
    requires variables { access.now.var < length learned.now }
    ensures long { length known.new.items ≡ length known.old.items }
    ensures known { (rows : List (List ℕ)) (us : List AnAccess) (i : ℕ) (first : List (List ℕ)) → slice_get us i ≡ Some access.now → VariablesKnow rows us i learned.now → ClaimsKnow rows us i first known.old.items → ClaimsKnow rows us (i + 1) first known.new.items }
{
    if access.commit & !access.performed {
        raise(known, access.claim, &learned[access.var as usize]);
    }
}

/// Each claim's clock, where these are the clocks of the blocks: a refused commit also knows what the commits hand on that are before it on
/// one of its variables, by number.
pub(crate) fn learn(
    alloc: Global,
    rows: &[[u32; ALL]],
    accesses: &[Access],
    known: &mut Vec<[u32; ALL]>,
) -> Result<(), AllocError>
    requires within { All (λ a. IsWithin (length known.old.items) a) accesses.now }
    ensures long { OnOk result (length known.new.items ≡ length known.old.items) }
    ensures known { OnOk result (ClaimsKnow rows.now accesses.now (length accesses.now) known.old.items known.new.items) }
{
    let mut learned = no_clocks(alloc, VARIABLES as usize)?;
    for access in accesses {
        learn_one(&learned, known, access);
        hand_on(rows, &mut learned, access);
    }
    Ok(())
}
