// The events that a row's Infos are walked over.
ghost use Rattle.std.specs.Prelude.{◌≡◌, ◌⊎◌, ◌<◌, ◌≤◌, ℕ, [], ◌∷◌, ◌++◌, ◌+◌, All, Some, length, vec_len, vec_capacity};
ghost use Rattle.gl_model.specs.declared.event.Stamp.{Stamp as AStamp};
ghost use Rattle.gl_model.specs.declared.row.Info.{Info as AnInfo};
ghost use Rattle.gl_model.specs.Elements.{IsStampInRange};
ghost use Rattle.gl_draws.specs.RowFacts.{read_of};
ghost use Rattle.gl_rule.specs.Fitting.{MayWalk};
ghost use Rattle.gl_rule.specs.Objects.{capacity};
ghost use Rattle.gl_rule.specs.Values.{InRow};
ghost use Rattle.gl_rule.specs.View.{with_loads};
ghost use Rattle.gl_table.specs.PassView.{view_of};
ghost use Rattle.gl_rows.specs.Walks.{KnowsFrom};

use gl_model::{Event, Info, Row, Stamp};
use gl_table::{Pass, Shared};

fn lower(kept: &Option<Info>, from: u64) -> u64
    ensures upto { result ≤ from }
    ensures below { (i : AnInfo) → kept.now ≡ Some i → result ≤ i.pos }
    ensures named { (result ≡ from) ⊎ ((i : AnInfo) × (kept.now ≡ Some i) × (i.pos ≡ result)) }
{
    match kept {
        None => from,
        Some(info) => { if info.pos < from { info.pos } else { from } }
    }
}

fn least_read(reads: &[Option<Info>], end: u64) -> u64
    ensures upto { result ≤ end }
    ensures below { (t : ℕ) (i : AnInfo) → read_of reads.now t ≡ Some i → result ≤ i.pos }
    ensures named { (result ≡ end) ⊎ ((t : ℕ) × (i : AnInfo) × (read_of reads.now t ≡ Some i) × (i.pos ≡ result)) }
{
    let mut from = end;
    for read in reads {
        from = lower(read, from);
    }
    from
}

// The least position of the row's Infos, or the end where none stands before it.
pub(crate) fn least(row: &Row, end: u64) -> u64
    ensures upto { result ≤ end }
    ensures below { (i : AnInfo) → InRow row.now i → result ≤ i.pos }
    ensures named { (result ≡ end) ⊎ ((i : AnInfo) × InRow row.now i × (i.pos ≡ result)) }
{
    lower(&row.last_write, least_read(&row.reads, end))
}

fn push_event(window: &mut Vec<Stamp>, thread: u8, event: Event)
    requires { vec_len window.old < vec_capacity window.old }
    ensures items { window.new.items ≡ window.old.items ++ (record { thread = thread; event = event }) ∷ [] }
    ensures room { vec_capacity window.new ≡ vec_capacity window.old }
{
    window.push_reserved(Stamp { thread, event });
}

// Loads the event at a position, and keeps it.
fn keep(shared: &Shared, pass: &mut Pass, pos: u64, window: &mut Vec<Stamp>)
    requires table { pass.old.own.table ≡ shared.now.id }
    requires may { (pos < pass.old.seen) × MayWalk (view_of pass.old) pos }
    requires room { pass.old.seen ≤ pos + capacity shared.now.key → vec_len window.old < vec_capacity window.old }
    ensures pass { pass.new ≡ record pass.old { known = pass.new.known; loaded = pass.new.loaded; moves = with_loads 5 pass.old.moves } }
    ensures known { (event : AStamp) × (pass.new.known ≡ pass.old.known ++ (pos, event) ∷ []) × (window.new.items ≡ window.old.items ++ event ∷ []) × IsStampInRange event }
    ensures ring { pass.old.seen ≤ pos + capacity shared.now.key }
    ensures room { vec_capacity window.new ≡ vec_capacity window.old }
{
    let Stamp { thread, event } = shared.event_at(pass, pos);
    push_event(window, thread, event);
}

// Loads the events from a position on, up to one that the pass has seen, each of them once.
pub(crate) fn load(shared: &Shared, pass: &mut Pass, from: u64, to: u64, window: &mut Vec<Stamp>)
    requires table { pass.old.own.table ≡ shared.now.id }
    requires from { from ≤ to }
    requires to { to ≤ pass.old.seen }
    requires named { (pos : ℕ) → from ≤ pos → pos < to → MayWalk (view_of pass.old) pos }
    requires room { capacity shared.now.key ≤ vec_capacity window.old }
    ensures pass { KnowsFrom from window.new.items pass.old pass.new }
    ensures ends { from + length window.new.items ≡ to }
    ensures stamps { All IsStampInRange window.new.items }
    ensures room { vec_capacity window.new ≡ vec_capacity window.old }
{
    window.clear();
    for pos in from..to {
        keep(shared, pass, pos, window);
    }
}
