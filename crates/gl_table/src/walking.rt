// Loading an event of the list from its cell.
ghost use Rattle.std.specs.Prelude.{◌≡◌, ℕ, ◌+◌, ◌<◌, ◌≤◌, ◌^◌, Contains, slice_index};
ghost use Rattle.gl_model.specs.declared.event.Stamp.{Stamp as AStamp};
ghost use Rattle.gl_model.specs.Elements.{IsStampInRange};
ghost use Rattle.gl_rule.specs.Cells.{packed, HasSmallCode};
ghost use Rattle.gl_rule.specs.Fitting.{MayWalk};
ghost use Rattle.gl_rule.specs.Objects.{capacity};
ghost use Rattle.gl_rule.specs.View.{CellWord, saw_cell};
ghost use Rattle.gl_table.specs.KeyOf.{key_of};
ghost use Rattle.gl_table.specs.OfTable.{OfTable};
ghost use Rattle.gl_table.specs.PassView.{view_of};
ghost use Rattle.gl_table.specs.Walking.{word_at, saw_word, four_words, knew};

use crate::moves::{Board, load_cell, load_event};
use crate::pass::Pass;
use crate::unpack::unpack;
use gl_model::Stamp;
use std::marker::Brand;

// Loads a word of the event at a position.
fn see_word(board: &Board, pass: &mut Pass, cells: u64, pos: u64, index: usize) -> u64
    requires table { OfTable pass.old.own.table board.now.table_id (key_of board.now.key) }
    requires cells { (cells ≡ capacity (key_of board.now.key)) × (cells < 2 ^ 32) }
    requires few { index < 5 }
    requires may { (pos < pass.old.seen) × MayWalk (view_of pass.old) pos }
    ensures pass { pass.new ≡ saw_word pass.old pos index result }
    ensures ring { pass.old.seen ≤ pos + capacity (key_of board.now.key) }
{
    load_cell::<Brand>(
        board,
        &mut pass.seat,
        pass.id,
        &pass.mine,
        pos,
        (pos % cells) as usize,
        index,
    )
}

// Loads the last word of the event at a position, and with it the event is known.
fn see_event(board: &Board, pass: &mut Pass, cells: u64, pos: u64) -> u64
    requires table { OfTable pass.old.own.table board.now.table_id (key_of board.now.key) }
    requires cells { (cells ≡ capacity (key_of board.now.key)) × (cells < 2 ^ 32) }
    requires may { (pos < pass.old.seen) × MayWalk (view_of pass.old) pos }
    ensures event { (x : AStamp) × IsStampInRange x × HasSmallCode x × ((q : CellWord) → Contains (saw_cell (view_of pass.old) (word_at pos 4 result)).loaded q → q.position ≡ pos → q.word ≡ slice_index (packed x) q.index) × (pass.new ≡ knew pass.old pos result x) }
{
    load_event::<Brand>(
        board,
        &mut pass.seat,
        pass.id,
        &pass.mine,
        pos,
        (pos % cells) as usize,
    )
}

// The event at a position, which is known from then on.
pub(crate) fn event_at(board: &Board, pass: &mut Pass, cells: u64, pos: u64) -> Stamp
    requires table { OfTable pass.old.own.table board.now.table_id (key_of board.now.key) }
    requires cells { (cells ≡ capacity (key_of board.now.key)) × (cells < 2 ^ 32) }
    requires may { (pos < pass.old.seen) × MayWalk (view_of pass.old) pos }
    ensures pass { (a : ℕ) × (b : ℕ) × (c : ℕ) × (d : ℕ) × (e : ℕ) × (pass.new ≡ knew (four_words pass.old pos a b c d) pos e result) }
    ensures ring { pass.old.seen ≤ pos + capacity (key_of board.now.key) }
    ensures range { IsStampInRange result }
{
    let a = see_word(board, pass, cells, pos, 0);
    let b = see_word(board, pass, cells, pos, 1);
    let c = see_word(board, pass, cells, pos, 2);
    let d = see_word(board, pass, cells, pos, 3);
    let e = see_event(board, pass, cells, pos);
    unpack(&[a, b, c, d, e])
}
