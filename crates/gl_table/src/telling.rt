// Publishing an event whose words stand in its cell.
ghost use Rattle.std.specs.Prelude.{◌≡◌, ◌<◌, ◌^◌, [], length};
ghost use Rattle.gl_model.specs.declared.limits.TheConstants.{VARIABLES};
ghost use Rattle.gl_model.specs.Entries.{Sync};
ghost use Rattle.gl_model.specs.Records.{variables_of};
ghost use Rattle.gl_table.specs.CaughtUp.{caught_up};
ghost use Rattle.gl_table.specs.Committing.{MayPublishTx, published_tx};
ghost use Rattle.gl_table.specs.KeyOf.{key_of};
ghost use Rattle.gl_rule.specs.Objects.{capacity};
ghost use Rattle.gl_table.specs.OfTable.{OfTable};
ghost use Rattle.gl_table.specs.PassInside.{IsReady};
ghost use Rattle.gl_table.specs.Putting.{MayPutWords, MayPublishAct, MayMarkPlain, MayOpenOn, MayPayOn, marked_plain, opened, paid_back, published_act};
ghost use Rattle.gl_rule.specs.Told.{IsAboveDrawn};
ghost use Rattle.gl_rule.specs.View.{filled, published};
ghost use Rattle.gl_rule.specs.declared.slot.Slot.TheVariants as slot;

use crate::hold::bring;
use crate::moves::{
    Board, Seat, draw_number, leave_paid, open_number, publish_act, publish_tx, put_word,
};
use crate::own_list::OwnList;
use crate::pack::{pack, pack_commit};
use crate::pass::Pass;
use gl_model::{Act, Entry, Tx, VarSet};
use gl_rule::Slot;
use gl_state::{KeptRow, ListState};
use std::marker::Brand;

// Stores the words in the cell of the tail.
fn put_words(board: &Board, seat: &mut Seat, id: u8, mine: &OwnList, cell: usize, words: &[u64])
    requires table { OfTable seat.old.table_id board.now.table_id (key_of board.now.key) }
    requires ready { IsReady seat.old.me.0 id mine.now.entries }
    requires near { (cell < capacity (key_of board.now.key)) × (cell < 2 ^ 32) }
    requires may { MayPutWords (key_of board.now.key) (caught_up seat.old.me.0 id mine.now.entries) cell }
    requires five { length words.now ≡ 5 }
    ensures seat { (seat.new.table_id ≡ seat.old.table_id) × (seat.new.id ≡ seat.old.id) × (seat.new.me.1 ≡ seat.old.me.1) }
    ensures ready { IsReady seat.new.me.0 id mine.now.entries }
    ensures stored { caught_up seat.new.me.0 id mine.now.entries ≡ filled (caught_up seat.old.me.0 id mine.now.entries) words.now }
{
    for (i, word) in words.iter().enumerate() {
        put_word::<Brand>(board, seat, id, mine, cell, i, *word);
    }
}

// Publishes an act, by which the list's state became `state`.
pub(crate) fn publish(
    board: &Board,
    pass: &mut Pass,
    cells: u64,
    act: &Act,
    value: i64,
    state: &ListState,
) -> u64
    requires table { OfTable pass.old.own.table board.now.table_id (key_of board.now.key) }
    requires cells { (cells ≡ capacity (key_of board.now.key)) × (cells < 2 ^ 32) }
    requires idle { pass.old.own.drawn ≡ [] }
    requires spare { 0 < pass.old.spare }
    requires may { MayPublishAct (key_of board.now.key) pass.old act.now value state.now }
    ensures published { pass.new ≡ published_act pass.old act.now value result state.now }
    ensures here { result ≡ pass.old.seen }
{
    let words = pack(pass.id, act);
    put_words(
        board,
        &mut pass.seat,
        pass.id,
        &pass.mine,
        (pass.seen % cells) as usize,
        &words,
    );
    let at = publish_act::<Brand>(
        board,
        &mut pass.seat,
        pass.id,
        &pass.mine,
        act,
        value,
        state,
    );
    pass.mine.push(Entry::Sync {
        at,
        act: *act,
        value,
    });
    pass.seen = at + 1;
    at
}

// Publishes a commit of these variables, by which the list's state became `state`.
pub(crate) fn commit(
    board: &Board,
    pass: &mut Pass,
    cells: u64,
    tx: Box<Tx>,
    vars: &VarSet,
    state: &ListState,
) -> u64
    requires table { OfTable pass.old.own.table board.now.table_id (key_of board.now.key) }
    requires cells { (cells ≡ capacity (key_of board.now.key)) × (cells < 2 ^ 32) }
    requires spare { 0 < pass.old.spare }
    requires vars { vars.now ≡ variables_of tx.value }
    requires may { MayPublishTx (key_of board.now.key) pass.old tx.value state.now }
    ensures published { pass.new ≡ published_tx pass.old tx.value result state.now }
    ensures here { result ≡ pass.old.seen }
{
    let words = pack_commit(pass.id, vars);
    put_words(
        board,
        &mut pass.seat,
        pass.id,
        &pass.mine,
        (pass.seen % cells) as usize,
        &words,
    );
    let at = publish_tx::<Brand>(board, &mut pass.seat, pass.id, &pass.mine, &tx, state);
    tx.keeps();
    pass.mine.push(Entry::Commit { at, tx });
    pass.seen = at + 1;
    at
}

// Draws the number of a plain access on a held row, and stores its entry.
pub(crate) fn mark_plain(
    board: &Board,
    pass: &mut Pass,
    var: u16,
    write: bool,
    value: i64,
    raised: bool,
) -> u64
    requires table { OfTable pass.old.own.table board.now.table_id (key_of board.now.key) }
    requires near { var < VARIABLES }
    requires spare { 0 < pass.old.spare }
    requires may { MayMarkPlain (key_of board.now.key).setting pass.old var write value raised }
    ensures marked { pass.new ≡ marked_plain pass.old var result write value raised }
{
    let nth = draw_number::<Brand>(
        board,
        &mut pass.seat,
        pass.id,
        &pass.mine,
        var,
        write,
        value,
        raised,
    );
    pass.mine.push(Entry::Plain {
        var,
        nth,
        cached: false,
        write,
        value,
        raised,
    });
    nth
}

// Draws a number on a held row, for a look with this word or for the end of an attempt.
pub(crate) fn open(board: &Board, pass: &mut Pass, var: u16, look: Option<i64>) -> u64
    requires table { OfTable pass.old.own.table board.now.table_id (key_of board.now.key) }
    requires near { var < VARIABLES }
    requires may { MayOpenOn pass.old var look }
    ensures opened { pass.new ≡ opened pass.old var result look }
    ensures above { IsAboveDrawn var result pass.old.own.drawn }
{
    open_number::<Brand>(board, &mut pass.seat, pass.id, &pass.mine, var, look)
}

// Puts a row back, which has a value that was owed.
pub(crate) fn put_paid(board: &Board, pass: &mut Pass, var: u16, row: KeptRow)
    requires table { OfTable pass.old.own.table board.now.table_id (key_of board.now.key) }
    requires near { var < VARIABLES }
    requires may { MayPayOn pass.old var row }
    ensures { pass.new ≡ paid_back pass.old var row }
{
    bring(&mut pass.seat, pass.order.as_mut_slice(), var + 1);
    pass.order.remove(0);
    let Slot::Empty = board.exchange(&mut pass.seat, var as usize + 1, Slot::Row(row)) else {
        unreachable!()
    };
    leave_paid::<Brand>(board, &mut pass.seat, pass.id, &pass.mine, var);
}
