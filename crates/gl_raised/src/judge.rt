// On which variables the entries are racy.
ghost use Rattle.std.specs.Prelude.{◌≡◌, ◌↔◌, ℕ, ◌<◌, ◌+◌, true, All, List, IfOk, Option, length, slice_get, Some, None};
ghost use Rattle.gl_model.specs.declared.limits.TheConstants.{THREADS, VARIABLES};
ghost use Rattle.gl_raised.specs.Accesses.{IsWithin};
ghost use Rattle.gl_raised.specs.Judged.{AreLasts, AreLeast, AreOfThreads, IsRacyBy, least_of};
ghost use Rattle.gl_raised.specs.declared.access.Access.{Access as AnAccess};

use crate::access::Access;
use crate::lasts::Lasts;
use crate::rows::ALL;
use gl_model::VARIABLES;
use std::alloc::{AllocError, Global};

// What is kept of each variable before the first access.
fn no_lasts(alloc: Global) -> Result<Vec<Lasts>, AllocError>
    ensures long { IfOk result (λ lasts. length lasts.items ≡ VARIABLES) }
    ensures none { IfOk result (λ lasts. (us : List AnAccess) → AreLasts us 0 lasts.items) }
{
    let mut lasts = Vec::new(alloc);
    for _ in 0..VARIABLES {
        lasts.push(Lasts::none())?;
    }
    Ok(lasts)
}

// So many claims of which none is racy.
fn no_races(alloc: Global, count: usize) -> Result<Vec<Option<u16>>, AllocError>
    ensures long { IfOk result (λ least. length least.items ≡ count) }
    ensures none { IfOk result (λ least. (known : List (List ℕ)) (us : List AnAccess) → AreLeast known us 0 least.items) }
{
    let mut least = Vec::new(alloc);
    for _ in 0..count {
        least.push(None)?;
    }
    Ok(least)
}

// The least of the variables so far and of this one.
fn least_of(least: Option<u16>, var: u16) -> Option<u16>
    ensures { result ≡ least_of least var }
{
    match least {
        Some(before) => Some(before.min(var)),
        None => Some(var),
    }
}

// Whether an access is racy by what is kept of its variable.
fn is_racy(lasts: &[Lasts], known: &[[u32; ALL]], access: &Access) -> bool
    requires variable { access.now.var < length lasts.now }
    requires claim { access.now.claim < length known.now }
    ensures { (us : List AnAccess) (i : ℕ) → AreOfThreads us → AreLasts us i lasts.now → (result ≡ true) ↔ IsRacyBy known.now us i access.now }
{
    lasts[access.var as usize].fails(&known[access.claim], access)
}

// Notes that the access is racy, where it is.
fn note_racy(least: &mut Vec<Option<u16>>, access: &Access, racy: bool)
    requires { access.now.claim < length least.old.items }
    ensures long { length least.new.items ≡ length least.old.items }
    ensures least { (known : List (List ℕ)) (us : List AnAccess) (i : ℕ) → slice_get us i ≡ Some access.now → (racy ≡ true) ↔ IsRacyBy known us i access.now → AreLeast known us i least.old.items → AreLeast known us (i + 1) least.new.items }
{
    if racy {
        least[access.claim] = least_of(least[access.claim], access.var);
    }
}

// Notes the access, where it was performed.
fn note_last(lasts: &mut Vec<Lasts>, access: &Access)
    requires thread { access.now.thread < THREADS }
    requires variable { access.now.var < length lasts.old.items }
    ensures long { length lasts.new.items ≡ length lasts.old.items }
    ensures lasts { (us : List AnAccess) (i : ℕ) → slice_get us i ≡ Some access.now → AreLasts us i lasts.old.items → AreLasts us (i + 1) lasts.new.items }
{
    if access.performed {
        let mut last = lasts[access.var as usize];
        last.note(access);
        lasts[access.var as usize] = last;
    }
}

/// The least variable on which each claim's entry is racy, where these are the accesses in the order of their numbers.
pub(crate) fn least_races(
    alloc: Global,
    accesses: &[Access],
    known: &[[u32; ALL]],
) -> Result<Vec<Option<u16>>, AllocError>
    requires within { All (λ a. IsWithin (length known.now) a) accesses.now }
    ensures long { IfOk result (λ least. length least.items ≡ length known.now) }
    ensures least { IfOk result (λ least. AreLeast known.now accesses.now (length accesses.now) least.items) }
{
    let mut lasts = no_lasts(alloc)?;
    let mut least = no_races(alloc, known.len())?;
    for access in accesses {
        let racy = is_racy(&lasts, known, access);
        note_racy(&mut least, access, racy);
        note_last(&mut lasts, access);
    }
    Ok(least)
}
