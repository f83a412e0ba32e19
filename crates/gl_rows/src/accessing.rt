// A checked access to a row.
ghost use Rattle.std.specs.Prelude.{◌≡◌, ◌<◌, ◌≤◌, ◌-◌, IfOk, IfErr, OnOk, ◌↔◌, true};
ghost use Rattle.gl_judge.specs.declared.judging.Verdict.TheVariants.{Race};
ghost use Rattle.gl_model.specs.declared.limits.TheConstants.{THREADS, VARIABLES};
ghost use Rattle.gl_rule.specs.Objects.{capacity};
ghost use Rattle.gl_rows.specs.Accessing.{MayAccess, access_of, RowAfter, IsSeen, HasEntry, IsJudged, LoadsNone};
ghost use Rattle.gl_rows.specs.Walks.{ReadBusy};

use crate::checking::check;
use crate::window::Window;
use gl_judge::{Verdict, note};
use gl_model::{Question, Row};
use gl_shortcut::Cuts;
use gl_state::KeptRow;
use gl_table::{Busy, Pass, Shared};

/// What came of an access.
#[derive(Clone, Copy, Debug, PartialEq, Eq)]
pub enum Seen {
    /// It was performed: the value read, or written.
    Value(i64),
    /// It completes a race and was not performed; this is its number.
    Raised { nth: u64 },
}

/// What a plain access does: a read or a write, its value, and whether it is raised.
#[derive(Clone, Copy)]
pub(crate) struct PlainAccess {
    pub write: bool,
    pub value: i64,
    pub raised: bool,
}

// What the access to this row does, once it is judged.
fn judged(row: &Row, write: Option<i64>, raised: bool) -> PlainAccess
    ensures { result ≡ access_of row.now write raised }
{
    match write {
        Some(value) => PlainAccess {
            write: true,
            value,
            raised,
        },
        None => PlainAccess {
            write: false,
            value: if raised { 0 } else { row.value },
            raised,
        },
    }
}

fn is_race(verdict: Verdict) -> bool
    ensures { (result ≡ true) ↔ (verdict ≡ Race) }
{
    match verdict {
        Verdict::Ordered => false,
        Verdict::Race => true,
    }
}

// Stores in the row what it keeps of the access, whose Info stands at this position; of a raised one nothing.
fn store(kept: &mut KeptRow, access: &PlainAccess, q: &Question, at: u64)
    requires { q.now.thread < THREADS }
    ensures { RowAfter kept.old access.now q.now at kept.new }
{
    if access.raised {
        return;
    }
    let row = kept.row_mut();
    note(row, q, at);
    row.value = access.value;
}

fn answer(nth: u64, access: &PlainAccess) -> Seen
    ensures { IsSeen access.now nth result }
{
    if !access.raised {
        return Seen::Value(access.value);
    }
    Seen::Raised { nth }
}

/// Reads a variable, or writes it a value. Raised comes exactly where the row that the call took says that the access completes a race; its
/// word and Infos stay then. Else a read answers the row's word, and a write the value written. Either way the pass stores one entry. Busy
/// comes only where this call read the row's turn as held by another pass; the pass stores nothing then.
pub fn access(
    shared: &Shared,
    pass: &mut Pass,
    var: u16,
    write: Option<i64>,
    cuts: &Cuts,
    window: &mut Window,
) -> Result<Seen, Busy>
    requires may { MayAccess shared.now pass.old var }
    requires near { var < VARIABLES }
    requires window { capacity shared.now.key ≤ window.old }
    ensures own { IfOk result (λ s. HasEntry var write pass.old.own s pass.new.own) }
    ensures judged { IfOk result (λ s. IsJudged shared.now.key.setting var write pass.old s pass.new) }
    ensures loads { OnOk result (LoadsNone cuts.now var write pass.old pass.new) }
    ensures spare { OnOk result (pass.new.spare ≡ pass.old.spare - 1) }
    ensures busy { IfErr result (λ b. ReadBusy var b.by pass.old pass.new) }
    ensures later { pass.old.seen ≤ pass.new.seen }
    ensures quiet { pass.new.quiet ≡ pass.old.quiet }
    ensures window { window.new ≡ window.old }
{
    let mut kept = match shared.take_row(pass, var) {
        Ok(kept) => kept,
        Err(busy) => return Err(busy),
    };
    let tail = shared.tail(pass);
    let q = Question {
        thread: pass.id(),
        write: write.is_some(),
        commit: None,
        held: pass.monitors(),
    };
    let race = is_race(check(shared, pass, kept.row(), &q, cuts, window));
    let access = judged(kept.row(), write, race);
    let nth = shared.mark(pass, var, access.write, access.value, access.raised);
    store(&mut kept, &access, &q, tail);
    shared.put_row(pass, var, kept);
    Ok(answer(nth, &access))
}
