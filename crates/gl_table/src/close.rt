// The end of a table.
ghost use Rattle.std.specs.Prelude.{◌≡◌, ℕ, ◌+◌, ◌≤◌, ◌<◌, ◌∷◌, ◌++◌, [], map, IfOk, IfErr, List};
ghost use Rattle.std.specs.List.{All, AllByRecursion};
ghost use Rattle.gl_model.specs.Entries.{seen};
ghost use Rattle.gl_model.specs.Kept.{IsEntryKept};
ghost use Rattle.gl_model.specs.Lawful.{IsLawful};
ghost use Rattle.gl_model.specs.Lists.{lists_of};
ghost use Rattle.gl_model.specs.declared.limits.TheConstants.{THREADS};
ghost use Rattle.gl_rule.specs.Bounded.{IsBounded};
ghost use Rattle.gl_rule.specs.Closed.{kept_lists};
ghost use Rattle.gl_table.specs.Ending.{IsDonePass, AreAllDone, IsRoot, IsTrimmed, shelves_of, mine_at};
ghost use Rattle.gl_table.specs.KeyOf.{key_of};
ghost use Rattle.gl_table.specs.OfTable.{IsTable};
ghost use Rattle.gl_table.specs.PassView.{PassView, shelf_of};

use crate::moves::{Board, Seat, load_last, load_tail};
use crate::pass::Pass;
use crate::rule::{Enters, Glue};
use crate::sealed::Sealed;
use crate::shared::Shared;
use gl_model::{Entry, RecordRoom};
use std::alloc::AllocError;
use std::marker::Brand;

// Joins a pass that is done to the root, and answers what it stored.
fn join_pass(board: &Board, root: &mut Seat, pass: Pass) -> Vec<Entry>
    requires table { (root.old.table_id ≡ board.now.table_id) × IsTable board.now.table_id (key_of board.now.key) }
    requires pass { (j : ℕ) × IsDonePass board.now.table_id j pass }
    requires root { (ps : List PassView) × IsRoot root.old.me ps }
    ensures table { root.new.table_id ≡ root.old.table_id }
    ensures root { (ps : List PassView) → IsRoot root.old.me ps → IsRoot root.new.me (ps ++ pass ∷ []) }
    ensures mine { map seen result.items ≡ pass.own.mine }
    ensures kept { All IsEntryKept pass.own.mine }
    ensures named { pass.own.id < THREADS }
{
    let Pass {
        mut seat,
        id,
        mine,
        seen: _,
        quiet: _,
        order: _,
    } = pass;
    load_tail::<Brand>(board, &mut seat, id, &mine);
    board.join_seat::<Glue>(root, seat);
    mine.into_entries()
}

// Joins a pass to the root, and moves its list into the room if it has an entry.
fn gather_one(board: &Board, root: &mut Seat, room: &mut RecordRoom, pass: Pass)
    requires table { (root.old.table_id ≡ board.now.table_id) × IsTable board.now.table_id (key_of board.now.key) }
    requires pass { (j : ℕ) × IsDonePass board.now.table_id j pass }
    requires root { (ps : List PassView) × IsRoot root.old.me ps }
    requires room { 0 < room.old.room }
    requires behind { AllByRecursion (λ l. l.0 < pass.own.id) room.old.lists }
    ensures table { root.new.table_id ≡ root.old.table_id }
    ensures root { (ps : List PassView) → IsRoot root.old.me ps → IsRoot root.new.me (ps ++ pass ∷ []) }
    ensures lists { room.new.lists ≡ room.old.lists ++ kept_lists (shelf_of pass ∷ []) }
    ensures room { room.old.room ≤ room.new.room + 1 }
{
    let id = pass.id();
    let mine = join_pass(board, root, pass);
    if !mine.is_empty() {
        room.add(id, mine);
    }
}

// Joins all passes to the root, and moves their lists into the room.
fn gather(board: &Board, root: &mut Seat, room: &mut RecordRoom, passes: Vec<Pass>)
    requires table { (root.old.table_id ≡ board.now.table_id) × IsTable board.now.table_id (key_of board.now.key) }
    requires all { AreAllDone board.now.table_id passes.items }
    requires root { IsRoot root.old.me [] }
    requires room { (16 ≤ room.old.room) × (room.old.lists ≡ []) }
    ensures table { root.new.table_id ≡ root.old.table_id }
    ensures root { IsRoot root.new.me passes.items }
    ensures lists { room.new.lists ≡ kept_lists (shelves_of passes.items) }
{
    for pass in passes {
        gather_one(board, root, room, pass);
    }
}

impl Shared {
    /// Ends the table, whose passes are all given back, in the order of their numbers, each done. The record has their lists that are not
    /// empty; its positions, numbers and low marks are below 2^56. It takes its memory first; the Err hands all back as it was.
    pub fn close(self, passes: Vec<Pass>) -> Result<Sealed, (Shared, Vec<Pass>, AllocError)>
        requires all { AreAllDone self.id passes.items }
        ensures key { IfOk result (λ s. s.key ≡ self.key) }
        ensures lists { IfOk result (λ s. (t : ℕ) → lists_of s.entries t ≡ mine_at passes.items t) }
        ensures lawful { IfOk result (λ s. IsLawful self.key.setting (lists_of s.entries)) }
        ensures trims { IfOk result (λ s. IsTrimmed self.key (lists_of s.entries)) }
        ensures bounded { IfOk result (λ s. IsBounded (lists_of s.entries)) }
        ensures err { IfErr result (λ e. (e.0 ≡ self) × (e.1 ≡ passes)) }
    {
        let Ok(mut room) = RecordRoom::with_capacity(*passes.allocator(), 16) else {
            return Err((self, passes, AllocError));
        };
        let Shared { table, layout } = self;
        let mut root = table.shared.load_new_seat::<Enters>(0).1;
        gather(&table.shared, &mut root, &mut room, passes);
        load_last::<Brand>(&table.shared, &mut root);
        drop(table);
        let record = room.record();
        record.keeps();
        Ok(Sealed::of(record, layout))
    }
}
