// Judging an access to a row that is held.
ghost use Rattle.std.specs.Prelude.{◌≡◌, ◌↔◌, ◌<◌, ◌≤◌, List, vec_capacity};
ghost use Rattle.gl_model.specs.declared.event.Stamp.{Stamp as AStamp};
ghost use Rattle.gl_model.specs.declared.limits.TheConstants.{THREADS};
ghost use Rattle.gl_model.specs.declared.row.Info.{Info as AnInfo};
ghost use Rattle.gl_model.specs.Machine.{Setting};
ghost use Rattle.gl_draws.specs.RowFacts.{SomeFails, IsWithin};
ghost use Rattle.gl_judge.specs.Conflicting.{Keeps, Conflicts};
ghost use Rattle.gl_judge.specs.declared.judging.Verdict.TheVariants.{Race};
ghost use Rattle.gl_judge.specs.Standing.{InfosStand};
ghost use Rattle.gl_rule.specs.Fitting.{IsFitting};
ghost use Rattle.gl_rule.specs.Objects.{capacity};
ghost use Rattle.gl_shortcut.specs.Ordering.{IsOfNext};
ghost use Rattle.gl_shortcut.specs.Surely.{SayYesSurely};
ghost use Rattle.gl_table.specs.PassView.{shelf_of};
ghost use Rattle.gl_rows.specs.Costs.{WalkCosts};
ghost use Rattle.gl_rows.specs.Walks.{HoldsRow, HasWalked};

use crate::walking::{least, load};
use crate::window::Window;
use gl_judge::{Verdict, early, judge};
use gl_model::{Question, Row, Stamp};
use gl_shortcut::Cuts;
use gl_table::{Pass, Shared};

// What the events from the least position of the row's Infos on say of an access.
fn walked(
    shared: &Shared,
    pass: &mut Pass,
    row: &Row,
    q: &Question,
    cuts: &Cuts,
    window: &mut Vec<Stamp>,
) -> Verdict
    requires table { pass.old.own.table ≡ shared.now.id }
    requires held { HoldsRow pass.old row.now }
    requires within { IsWithin row.now pass.old.seen }
    requires thread { q.now.thread < THREADS }
    requires room { capacity shared.now.key ≤ vec_capacity window.old }
    ensures pass { HasWalked row.now pass.old pass.new }
    ensures race { (setting : Setting) (l : List AStamp) → IsFitting setting (shelf_of pass.new) pass.new.seen pass.new.known l → IsOfNext setting l q.now → InfosStand setting l row.now → (result ≡ Race) ↔ SomeFails l row.now q.now }
    ensures room { vec_capacity window.new ≡ vec_capacity window.old }
{
    let end = pass.seen();
    let from = least(row, end);
    load(shared, pass, from, end, window);
    judge(row, q, from, window.as_slice(), cuts)
}

/// Whether an access to a row completes a race: Race exactly where some Info that conflicts with it fails its test, over each list of
/// events that the pass cannot tell from the table's, in which the row's Infos stand for accesses and the question is of a next access.
/// The pass holds the row, which is as it was taken, and has loaded the tail since. The early cuts are asked first: where some of them is
/// sure of each Info that conflicts, nothing is loaded. Else the events from the least position of the row's Infos to that tail are
/// loaded, each of them once, into the window.
pub fn check(
    shared: &Shared,
    pass: &mut Pass,
    row: &Row,
    q: &Question,
    cuts: &Cuts,
    window: &mut Window,
) -> Verdict
    requires table { pass.old.own.table ≡ shared.now.id }
    requires held { HoldsRow pass.old row.now }
    requires within { IsWithin row.now pass.old.seen }
    requires thread { q.now.thread < THREADS }
    requires window { capacity shared.now.key ≤ window.old }
    ensures pass { HasWalked row.now pass.old pass.new }
    ensures race { (setting : Setting) (l : List AStamp) → IsFitting setting (shelf_of pass.new) pass.new.seen pass.new.known l → IsOfNext setting l q.now → InfosStand setting l row.now → (result ≡ Race) ↔ SomeFails l row.now q.now }
    ensures cost { WalkCosts row.now pass.old.seen 0 pass.old pass.new }
    ensures sure { ((i : AnInfo) → Keeps row.now i → Conflicts i q.now → (i.thread < THREADS) × SayYesSurely cuts.now i q.now) → pass.new ≡ pass.old }
    ensures window { window.new ≡ window.old }
{
    if early(row, q, cuts) {
        return Verdict::Ordered;
    }
    walked(shared, pass, row, q, cuts, &mut window.events)
}
