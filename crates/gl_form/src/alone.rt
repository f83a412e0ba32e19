ghost use Rattle.std.specs.Prelude.{◌≡◌, ◌≢◌, ℕ, ◌<◌, ◌∷◌, [], length, map, slice_get, Contains, MatchBool, MatchOption};
ghost use Rattle.gl_model.specs.Entries.{seen};
ghost use Rattle.gl_model.specs.Form.{EntryForm, HasNoValue, NumbersName};
ghost use Rattle.gl_model.specs.Kept.{IsEntryKept, IsWhyKept};
ghost use Rattle.gl_model.specs.Records.{variables_of};
ghost use Rattle.gl_model.specs.declared.limits.TheConstants.{TX_VARIABLES, VARIABLES};
ghost use Rattle.gl_form.specs.Passed.{AbortForm, OwnStandAfter};

use gl_model::{Act, Entry, Looks, Numbers, Pairs, TX_VARIABLES, Tx, VarSet, Why};

// The codes of the refusals that name what was asked for: a monitor, a class and a thread.
const NOT_OWNER: u8 = 5;

const HEAP_FULL: u8 = 6;

const BAD_THREAD: u8 = 11;

// Whether two values are the same.
fn is_same(a: i64, b: i64) -> bool
    ensures { MatchBool result (a ≡ b) (a ≢ b) }
{
    a == b
}

// Whether an act of this thread has no value.
fn has_no_value(thread: u8, act: Act) -> bool
    ensures { MatchBool result (HasNoValue thread act) (HasNoValue thread act → ⊥) }
{
    match act {
        Act::Begin(_) => thread == 0,
        Act::End | Act::Acq(_) | Act::Rel(_) | Act::Join(_) => true,
        Act::VRead(_)
        | Act::VWrite(_)
        | Act::Fork { .. }
        | Act::Alloc(_)
        | Act::Print
        | Act::Input => false,
        Act::Fail(code) => code != NOT_OWNER && code != HEAP_FULL && code != BAD_THREAD,
    }
}

// The variables of the looks.
fn looked(looks: &Looks) -> VarSet
    ensures { result ≡ map (λ l. l.var) looks.now }
{
    looks.keeps();
    let mut vars = VarSet::empty();
    for i in 0..TX_VARIABLES as usize {
        if let Some(look) = looks.at(i) {
            let _ = vars.insert(look.var);
        }
    }
    vars
}

// The variables of the writes.
fn written(writes: &Pairs) -> VarSet
    ensures { result ≡ map (λ w. w.var) writes.now }
{
    writes.keeps();
    let mut vars = VarSet::empty();
    for i in 0..TX_VARIABLES as usize {
        if let Some(pair) = writes.at(i) {
            let _ = vars.insert(pair.var);
        }
    }
    vars
}

// The variables of the attempt, or `None` where there are more than a transaction may have.
fn variables(tx: &Tx) -> Option<VarSet>
    ensures { MatchOption result (TX_VARIABLES < length (variables_of tx.now)) (λ vars. vars ≡ variables_of tx.now) }
{
    looked(&tx.looks).union(&written(&tx.writes))
}

// Whether the number at place i is on the variable there, or neither is there.
fn is_on(numbers: &Numbers, vars: &VarSet, i: usize) -> bool
    ensures { MatchBool result
        (slice_get (map (λ n. n.var) numbers.now) i ≡ slice_get vars.now i)
        (slice_get (map (λ n. n.var) numbers.now) i ≢ slice_get vars.now i) }
{
    match (numbers.at(i), vars.get(i)) {
        (Some(number), Some(var)) => number.var == var,
        (None, None) => true,
        (Some(_), None) | (None, Some(_)) => false,
    }
}

// Whether the numbers are on just these variables.
fn are_on(numbers: &Numbers, vars: &VarSet) -> bool
    ensures { MatchBool result (map (λ n. n.var) numbers.now ≡ vars.now) (map (λ n. n.var) numbers.now ≢ vars.now) }
{
    numbers.keeps();
    vars.keeps();
    for i in 0..TX_VARIABLES as usize {
        if !is_on(numbers, vars, i) {
            return false;
        }
    }
    true
}

// Whether a number stands after the look at its variable, if there is one.
fn stands_after(looks: &Looks, var: u16, nth: u64) -> bool
    ensures { MatchBool result (OwnStandAfter looks.now var nth) (OwnStandAfter looks.now var nth → ⊥) }
{
    looks.keeps();
    match looks.of(var) {
        Some(look) => look.nth < nth,
        None => true,
    }
}

// Whether each of the attempt's own numbers does.
fn stand_after(tx: &Tx) -> bool
    ensures { MatchBool result
        ((x m : ℕ) → Contains tx.now.numbers (record { var = x; nth = m }) → OwnStandAfter tx.now.looks x m)
        (((x m : ℕ) → Contains tx.now.numbers (record { var = x; nth = m }) → OwnStandAfter tx.now.looks x m) → ⊥) }
{
    tx.keeps();
    for i in 0..TX_VARIABLES as usize {
        if let Some(number) = tx.numbers.at(i) {
            if !stands_after(&tx.looks, number.var, number.nth) {
                return false;
            }
        }
    }
    true
}

// Whether the attempt's own numbers name just these variables, and stand after those of its looks.
fn names(tx: &Tx, vars: &VarSet) -> bool
    ensures { MatchBool result (NumbersName tx.now vars.now) (NumbersName tx.now vars.now → ⊥) }
{
    are_on(&tx.numbers, vars) && stand_after(tx)
}

// Whether they name just the attempt's variables.
fn names_its_variables(tx: &Tx) -> bool
    ensures { MatchBool result (NumbersName tx.now (variables_of tx.now)) (NumbersName tx.now (variables_of tx.now) → ⊥) }
{
    tx.keeps();
    match variables(tx) {
        Some(vars) => names(tx, &vars),
        None => false,
    }
}

// Whether they name this variable alone.
fn names_only(tx: &Tx, var: u16) -> bool
    requires { var < VARIABLES }
    ensures { MatchBool result (NumbersName tx.now (var ∷ [])) (NumbersName tx.now (var ∷ []) → ⊥) }
{
    let mut vars = VarSet::empty();
    let _ = vars.insert(var);
    names(tx, &vars)
}

// Whether the variable was looked at, and this value read.
fn was_read(looks: &Looks, var: u16, read: i64) -> bool
    ensures { MatchBool result
        ((nth : ℕ) × Contains looks.now (record { var = var; value = read; nth = nth }))
        (((nth : ℕ) × Contains looks.now (record { var = var; value = read; nth = nth })) → ⊥) }
{
    looks.keeps();
    match looks.of(var) {
        Some(look) => is_same(look.value, read),
        None => false,
    }
}

// Whether an attempt that was dropped for this is what it has to be.
fn is_formed_abort(tx: &Tx, why: Why) -> bool
    requires { IsWhyKept why }
    ensures { MatchBool result (AbortForm tx.now why) (AbortForm tx.now why → ⊥) }
{
    match why {
        Why::Raised { .. } => names_its_variables(tx),
        Why::Changed { var, read, found } => {
            names_only(tx, var) && was_read(&tx.looks, var, read) && !is_same(read, found)
        }
    }
}

/// Whether an entry of this thread is what it has to be by itself.
pub(crate) fn is_formed(thread: u8, entry: &Entry) -> bool
    requires { IsEntryKept (seen entry.now) }
    ensures { MatchBool result (EntryForm thread (seen entry.now)) (EntryForm thread (seen entry.now) → ⊥) }
{
    match entry {
        Entry::Sync { act, value, .. } => *value == 0 || !has_no_value(thread, *act),
        Entry::Commit { tx, .. } => names_its_variables(tx),
        Entry::Plain {
            cached,
            write,
            value,
            raised,
            ..
        } => !*raised || (!*cached && (*write || *value == 0)),
        Entry::Abort { tx, why } => is_formed_abort(tx, *why),
        Entry::Trim { .. } | Entry::Over(_) => true,
    }
}
