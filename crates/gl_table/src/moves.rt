// The steps on the table's words, each with what it tells its seat.
ghost use Rattle.std.specs.Prelude.{◌≡◌, pos, ℕ, ℤ, ◌<◌, ◌%◌, ◌+◌, ◌*◌, ◌^◌, suc, ◌∷◌, [], List, length, Contains};
ghost use Rattle.gl_model.specs.declared.limits.TheConstants.{VARIABLES};
ghost use Rattle.gl_model.specs.declared.event.Event.TheVariants.{Act as Does};
ghost use Rattle.gl_model.specs.declared.row.Row.{Row as ARow};
ghost use Rattle.gl_model.specs.declared.row.Question.{Question};
ghost use Rattle.gl_model.specs.Entries.{Commit, Sync};
ghost use Rattle.gl_table.specs.CaughtUp.{caught_up, block_of};
ghost use Rattle.gl_rule.specs.Fitting.{MayPublish, MayMark, MayOpen, MayWalk, MayStoreWord, MayRaise, MayTrim};
ghost use Rattle.gl_table.specs.Committing.{commit_stamp};
ghost use Rattle.gl_table.specs.Ending.{ClosedTold};
ghost use Rattle.gl_table.specs.Told.{PaidLeft, PublishedTx, head_slot};
ghost use Rattle.gl_rule.specs.Commits.{MayCommit, MayPay};
ghost use Rattle.gl_table.specs.KeyOf.{key_of};
ghost use Rattle.gl_state.specs.ListView.{ListView};
ghost use Rattle.gl_rule.specs.Objects.{capacity, objects};
ghost use Rattle.gl_table.specs.OfTable.{OfTable};
ghost use Rattle.gl_table.specs.PassInside.{IsReady};
ghost use Rattle.gl_table.specs.Putting.{DoesNotHold, MayPutBack, held_at};
ghost use Rattle.gl_rule.specs.Told.{Took, Left, SawTail, Saw, SawStop, SawHold, PutWord, PublishedAct, Marked, Opened, SawCell, SawEvent, SawFloor, Raised, Lowered};
ghost use Rattle.gl_rule.specs.View.{shelf, Held, SetStop};
ghost use Rattle.gl_rule.specs.declared.slot.Slot.{Slot as ASlot};
ghost use Rattle.gl_rule.specs.declared.slot.Slot.TheVariants as slot;

use crate::layout::Layout;
use crate::own_list::OwnList;
use crate::rule::{
    Closes, Commits, Leaves, Lowers, Marks, Opens, Order, Pays, Publishes, Puts, Raises, SeesCell,
    SeesEvent, SeesFloor, SeesHold, SeesStop, SeesTail, Stops, Takes, Told,
};
use gl_model::{Act, Row, Tx};
use gl_rule::{Know, Slot};
use gl_state::ListState;

pub type Seat = atomic_table::Seat<Slot, Know>;

pub type Board = atomic_table::Shared<Slot, Know, Layout, Order>;

// Tries to take the turn of an object, for the pass `id`.
pub fn take_turn<B: Told>(
    board: &Board,
    seat: &mut Seat,
    id: u8,
    mine: &OwnList,
    object: u16,
) -> u64
    requires table { OfTable seat.old.table_id board.now.table_id (key_of board.now.key) }
    requires ready { IsReady seat.old.me.0 id mine.now.entries }
    requires told { (B.view ≡ caught_up seat.old.me.0 id mine.now.entries) × (B.object ≡ object) × (B.setting ≡ (key_of board.now.key).setting) }
    requires near { object < objects }
    requires free { DoesNotHold (caught_up seat.old.me.0 id mine.now.entries).held object }
    ensures seat { (seat.new.table_id ≡ seat.old.table_id) × (seat.new.id ≡ seat.old.id) }
    ensures took { Took (key_of board.now.key).setting object (caught_up seat.old.me.0 id mine.now.entries) seat.old.me.1 result seat.new.me }
{
    board.compare_exchange::<Takes<B>>(seat, 3 * object as usize + 1, 0, id as u64 + 1)
}

// Leaves the turn of an object, which is in its slot.
pub fn leave_turn<B: Told>(
    board: &Board,
    seat: &mut Seat,
    id: u8,
    mine: &OwnList,
    object: u16,
    quiet: bool,
)
    requires table { OfTable seat.old.table_id board.now.table_id (key_of board.now.key) }
    requires ready { IsReady seat.old.me.0 id mine.now.entries }
    requires told { (B.view ≡ caught_up seat.old.me.0 id mine.now.entries) × (B.object ≡ object) × (B.quiet ≡ quiet) }
    requires near { object < objects }
    requires back { (y : ASlot) × (c : List (ℕ × ASlot)) × (seat.old.me.1 ≡ (object, y) ∷ c) × MayPutBack (key_of board.now.key).setting (shelf id mine.now.entries) (caught_up seat.old.me.0 id mine.now.entries) object y quiet }
    ensures seat { (seat.new.table_id ≡ seat.old.table_id) × (seat.new.id ≡ seat.old.id) }
    ensures left { Left object quiet (caught_up seat.old.me.0 id mine.now.entries) seat.old.me.1 seat.new.me }
{
    board.store::<Leaves<B>>(seat, 3 * object as usize + 1, 0);
}

// Loads the tail.
pub fn load_tail<B: Told>(board: &Board, seat: &mut Seat, id: u8, mine: &OwnList) -> u64
    requires table { OfTable seat.old.table_id board.now.table_id (key_of board.now.key) }
    requires ready { IsReady seat.old.me.0 id mine.now.entries }
    requires told { B.view ≡ caught_up seat.old.me.0 id mine.now.entries }
    ensures seat { (seat.new.table_id ≡ seat.old.table_id) × (seat.new.id ≡ seat.old.id) }
    ensures saw { SawTail (caught_up seat.old.me.0 id mine.now.entries) seat.old.me.1 result seat.new.me }
{
    board.load::<SeesTail<B>>(seat, 0)
}

// Loads an object's hold.
pub fn load_hold<B: Told>(
    board: &Board,
    seat: &mut Seat,
    id: u8,
    mine: &OwnList,
    object: u16,
) -> u64
    requires table { OfTable seat.old.table_id board.now.table_id (key_of board.now.key) }
    requires ready { IsReady seat.old.me.0 id mine.now.entries }
    requires told { (B.view ≡ caught_up seat.old.me.0 id mine.now.entries) × (B.object ≡ object) }
    requires near { object < objects }
    ensures seat { (seat.new.table_id ≡ seat.old.table_id) × (seat.new.id ≡ seat.old.id) }
    ensures saw { SawHold object (caught_up seat.old.me.0 id mine.now.entries) seat.old.me.1 result seat.new.me }
{
    board.load::<SeesHold<B>>(seat, 3 * object as usize + 2)
}

// Stores the next word in the cell of the tail.
pub fn put_word<B: Told>(
    board: &Board,
    seat: &mut Seat,
    id: u8,
    mine: &OwnList,
    cell: usize,
    index: usize,
    word: u64,
)
    requires table { OfTable seat.old.table_id board.now.table_id (key_of board.now.key) }
    requires ready { IsReady seat.old.me.0 id mine.now.entries }
    requires told { B.view ≡ caught_up seat.old.me.0 id mine.now.entries }
    requires may { (h : Held) × (tail : ℕ) × MayStoreWord (key_of board.now.key) (caught_up seat.old.me.0 id mine.now.entries) h tail × (cell ≡ tail % capacity (key_of board.now.key)) }
    requires near { (cell < capacity (key_of board.now.key)) × (cell < 2 ^ 32) × (index < 5) }
    requires next { index ≡ length (caught_up seat.old.me.0 id mine.now.entries).stored }
    ensures seat { (seat.new.table_id ≡ seat.old.table_id) × (seat.new.id ≡ seat.old.id) }
    ensures put { PutWord word (caught_up seat.old.me.0 id mine.now.entries) seat.old.me.1 seat.new.me }
{
    board.store::<Puts<B>>(seat, 3076 + 5 * cell + index, word);
}

// Publishes an event that is no commit, which stands in its cell.
pub fn publish_act<B: Told>(
    board: &Board,
    seat: &mut Seat,
    id: u8,
    mine: &OwnList,
    act: &Act,
    value: i64,
    state: &ListState,
) -> u64
    requires table { OfTable seat.old.table_id board.now.table_id (key_of board.now.key) }
    requires ready { IsReady seat.old.me.0 id mine.now.entries }
    requires told { (B.view ≡ caught_up seat.old.me.0 id mine.now.entries) × (B.event ≡ record { shelf = shelf id mine.now.entries; act = act.now; value = value; state = slot.List state.now }) }
    requires idle { (caught_up seat.old.me.0 id mine.now.entries).drawn ≡ [] }
    requires may { (h : Held) × (l : ListView) × MayPublish (key_of board.now.key) (shelf id mine.now.entries) (caught_up seat.old.me.0 id mine.now.entries) h l state.now (λ n. Sync n act.now value) (record { thread = id; event = Does act.now }) value }
    ensures seat { (seat.new.table_id ≡ seat.old.table_id) × (seat.new.id ≡ seat.old.id) }
    ensures published { PublishedAct (shelf id mine.now.entries) act.now value (slot.List state.now) (caught_up seat.old.me.0 id mine.now.entries) seat.old.me.1 result seat.new.me }
{
    board.fetch_add::<Publishes<B>>(seat, 0, 1)
}

// Draws the next number of the variable for a plain access, whose entry the thread stores next.
pub fn draw_number<B: Told>(
    board: &Board,
    seat: &mut Seat,
    id: u8,
    mine: &OwnList,
    var: u16,
    write: bool,
    value: i64,
    raised: bool,
) -> u64
    requires table { OfTable seat.old.table_id board.now.table_id (key_of board.now.key) }
    requires ready { IsReady seat.old.me.0 id mine.now.entries }
    requires near { var < VARIABLES }
    requires told { (B.view ≡ caught_up seat.old.me.0 id mine.now.entries) × (B.mark ≡ record { shelf = shelf id mine.now.entries; block = block_of mine.now.entries; write = write; value = value; raised = raised }) × (B.object ≡ var) × (B.held ≡ held_at (var + 1) (caught_up seat.old.me.0 id mine.now.entries).held) }
    requires may { (taken : ARow) × (q : Question) × MayMark (key_of board.now.key).setting (shelf id mine.now.entries) (caught_up seat.old.me.0 id mine.now.entries) (held_at (var + 1) (caught_up seat.old.me.0 id mine.now.entries).held) var taken (block_of mine.now.entries) q write value raised }
    ensures seat { (seat.new.table_id ≡ seat.old.table_id) × (seat.new.id ≡ seat.old.id) }
    ensures drew { Marked (shelf id mine.now.entries) (held_at (var + 1) (caught_up seat.old.me.0 id mine.now.entries).held) var (block_of mine.now.entries) write value raised (caught_up seat.old.me.0 id mine.now.entries) seat.old.me.1 result seat.new.me }
{
    board.fetch_add::<Marks<B>>(seat, 3 * (var as usize + 1), 1)
}

// Loads the hold of a row that is held.
pub fn load_floor<B: Told>(board: &Board, seat: &mut Seat, id: u8, mine: &OwnList, var: u16) -> u64
    requires table { OfTable seat.old.table_id board.now.table_id (key_of board.now.key) }
    requires ready { IsReady seat.old.me.0 id mine.now.entries }
    requires near { var < VARIABLES }
    requires told { (B.view ≡ caught_up seat.old.me.0 id mine.now.entries) × (B.held ≡ held_at (var + 1) (caught_up seat.old.me.0 id mine.now.entries).held) }
    requires held { Contains (caught_up seat.old.me.0 id mine.now.entries).held (held_at (var + 1) (caught_up seat.old.me.0 id mine.now.entries).held) × ((held_at (var + 1) (caught_up seat.old.me.0 id mine.now.entries).held).object ≡ suc var) }
    ensures seat { (seat.new.table_id ≡ seat.old.table_id) × (seat.new.id ≡ seat.old.id) }
    ensures saw { SawFloor (held_at (var + 1) (caught_up seat.old.me.0 id mine.now.entries).held) (caught_up seat.old.me.0 id mine.now.entries) seat.old.me.1 result seat.new.me }
{
    board.load::<SeesFloor<B>>(seat, 3 * (var as usize + 1) + 2)
}

// Raises the hold of a row that is held, whose Infos have been moved up.
pub fn raise_floor<B: Told>(
    board: &Board,
    seat: &mut Seat,
    id: u8,
    mine: &OwnList,
    var: u16,
    row: &Row,
    to: u64,
)
    requires table { OfTable seat.old.table_id board.now.table_id (key_of board.now.key) }
    requires ready { IsReady seat.old.me.0 id mine.now.entries }
    requires near { var < VARIABLES }
    requires told { (B.view ≡ caught_up seat.old.me.0 id mine.now.entries) × (B.held ≡ held_at (var + 1) (caught_up seat.old.me.0 id mine.now.entries).held) × (B.event.state ≡ slot.Row row.now) }
    requires may { (taken : ARow) × MayRaise (key_of board.now.key).setting (shelf id mine.now.entries) (caught_up seat.old.me.0 id mine.now.entries) (held_at (var + 1) (caught_up seat.old.me.0 id mine.now.entries).held) var taken row.now to }
    ensures seat { (seat.new.table_id ≡ seat.old.table_id) × (seat.new.id ≡ seat.old.id) }
    ensures raised { Raised (held_at (var + 1) (caught_up seat.old.me.0 id mine.now.entries).held) (slot.Row row.now) to (caught_up seat.old.me.0 id mine.now.entries) seat.old.me.1 seat.new.me }
{
    board.store::<Raises<B>>(seat, 3 * (var as usize + 1) + 2, to);
}

// Raises the first segment; answers what it was.
pub fn raise_first<B: Told>(board: &Board, seat: &mut Seat, id: u8, mine: &OwnList, to: u64) -> u64
    requires table { OfTable seat.old.table_id board.now.table_id (key_of board.now.key) }
    requires ready { IsReady seat.old.me.0 id mine.now.entries }
    requires told { (B.view ≡ caught_up seat.old.me.0 id mine.now.entries) × (B.event.shelf ≡ shelf id mine.now.entries) × (B.object ≡ to) }
    requires may { MayTrim (key_of board.now.key) (shelf id mine.now.entries) (caught_up seat.old.me.0 id mine.now.entries) to }
    ensures seat { (seat.new.table_id ≡ seat.old.table_id) × (seat.new.id ≡ seat.old.id) }
    ensures lowered { Lowered (shelf id mine.now.entries) to (caught_up seat.old.me.0 id mine.now.entries) seat.old.me.1 result seat.new.me }
{
    board.fetch_max::<Lowers<B>>(seat, 2, to)
}

// Sets the stop word.
pub fn set_word<B: Told>(board: &Board, seat: &mut Seat, id: u8, mine: &OwnList)
    requires table { OfTable seat.old.table_id board.now.table_id (key_of board.now.key) }
    requires ready { IsReady seat.old.me.0 id mine.now.entries }
    requires told { B.view ≡ caught_up seat.old.me.0 id mine.now.entries }
    ensures seat { (seat.new.table_id ≡ seat.old.table_id) × (seat.new.id ≡ seat.old.id) }
    ensures saw { Saw SetStop (caught_up seat.old.me.0 id mine.now.entries) seat.old.me.1 seat.new.me }
{
    board.store::<Stops<B>>(seat, 3075, 1);
}

// Loads the stop word.
pub fn load_stop<B: Told>(board: &Board, seat: &mut Seat, id: u8, mine: &OwnList) -> u64
    requires table { OfTable seat.old.table_id board.now.table_id (key_of board.now.key) }
    requires ready { IsReady seat.old.me.0 id mine.now.entries }
    requires told { B.view ≡ caught_up seat.old.me.0 id mine.now.entries }
    ensures seat { (seat.new.table_id ≡ seat.old.table_id) × (seat.new.id ≡ seat.old.id) }
    ensures saw { SawStop (caught_up seat.old.me.0 id mine.now.entries) seat.old.me.1 result seat.new.me }
{
    board.load::<SeesStop<B>>(seat, 3075)
}

// Draws a number for a look, or for the end of an attempt.
pub fn open_number<B: Told>(
    board: &Board,
    seat: &mut Seat,
    id: u8,
    mine: &OwnList,
    var: u16,
    look: Option<i64>,
) -> u64
    requires table { OfTable seat.old.table_id board.now.table_id (key_of board.now.key) }
    requires ready { IsReady seat.old.me.0 id mine.now.entries }
    requires told { (B.view ≡ caught_up seat.old.me.0 id mine.now.entries) × (B.mark.shelf ≡ shelf id mine.now.entries) × (B.mark.block ≡ block_of mine.now.entries) × (B.object ≡ var) × (B.look ≡ look) }
    requires near { var < VARIABLES }
    requires may { (taken : ARow) × MayOpen (shelf id mine.now.entries) (caught_up seat.old.me.0 id mine.now.entries) B.held var taken (block_of mine.now.entries) look }
    ensures seat { (seat.new.table_id ≡ seat.old.table_id) × (seat.new.id ≡ seat.old.id) }
    ensures drew { Opened (shelf id mine.now.entries) B.held var (block_of mine.now.entries) look (caught_up seat.old.me.0 id mine.now.entries) seat.old.me.1 result seat.new.me }
{
    board.fetch_add::<Opens<B>>(seat, 3 * (var as usize + 1), 1)
}

// Leaves the turn of a row, which has a value that was owed.
pub fn leave_paid<B: Told>(board: &Board, seat: &mut Seat, id: u8, mine: &OwnList, var: u16)
    requires table { OfTable seat.old.table_id board.now.table_id (key_of board.now.key) }
    requires ready { IsReady seat.old.me.0 id mine.now.entries }
    requires told { (B.view ≡ caught_up seat.old.me.0 id mine.now.entries) × (B.object ≡ var) × (B.event.state ≡ head_slot seat.old.me.1) }
    requires near { var < VARIABLES }
    requires back { (row : ARow) × (c : List (ℕ × ASlot)) × (seat.old.me.1 ≡ (var + 1, slot.Row row) ∷ c) × ((taken : ARow) × (value : ℤ) × MayPay (caught_up seat.old.me.0 id mine.now.entries) B.held var taken value × (row ≡ record taken { value = value })) }
    ensures seat { (seat.new.table_id ≡ seat.old.table_id) × (seat.new.id ≡ seat.old.id) }
    ensures left { PaidLeft var B.held (head_slot seat.old.me.1) (caught_up seat.old.me.0 id mine.now.entries) seat.old.me.1 seat.new.me }
{
    board.store::<Pays<B>>(seat, 3 * (var as usize + 1) + 1, 0);
}

// Publishes a commit, which stands in its cell.
pub fn publish_tx<B: Told>(
    board: &Board,
    seat: &mut Seat,
    id: u8,
    mine: &OwnList,
    tx: &Tx,
    state: &ListState,
) -> u64
    requires table { OfTable seat.old.table_id board.now.table_id (key_of board.now.key) }
    requires ready { IsReady seat.old.me.0 id mine.now.entries }
    requires told { (B.view ≡ caught_up seat.old.me.0 id mine.now.entries) × (B.event.shelf ≡ shelf id mine.now.entries) × (B.event.state ≡ slot.List state.now) × (B.tx ≡ tx.now) }
    requires may { (h : Held) × (l : ListView) × MayPublish (key_of board.now.key) (shelf id mine.now.entries) (caught_up seat.old.me.0 id mine.now.entries) h l state.now (λ n. Commit n tx.now) (commit_stamp id tx.now) (pos 0) }
    requires commits { (p : ℕ) × (m : ℕ) × (question : ℕ → Question) × MayCommit (key_of board.now.key).setting (shelf id mine.now.entries) (caught_up seat.old.me.0 id mine.now.entries) tx.now p m question }
    ensures seat { (seat.new.table_id ≡ seat.old.table_id) × (seat.new.id ≡ seat.old.id) }
    ensures published { PublishedTx (shelf id mine.now.entries) tx.now (slot.List state.now) (caught_up seat.old.me.0 id mine.now.entries) seat.old.me.1 result seat.new.me }
{
    board.fetch_add::<Commits<B>>(seat, 0, 1)
}

// Loads a word, but the last, of the event at a position.
pub fn load_cell<B: Told>(
    board: &Board,
    seat: &mut Seat,
    id: u8,
    mine: &OwnList,
    pos: u64,
    cell: usize,
    index: usize,
) -> u64
    requires table { OfTable seat.old.table_id board.now.table_id (key_of board.now.key) }
    requires ready { IsReady seat.old.me.0 id mine.now.entries }
    requires told { (B.view ≡ caught_up seat.old.me.0 id mine.now.entries) × (B.key ≡ key_of board.now.key) × (B.object ≡ pos) × (B.index ≡ index) }
    requires near { (cell ≡ pos % capacity (key_of board.now.key)) × (cell < capacity (key_of board.now.key)) × (cell < 2 ^ 32) × (index < 5) }
    requires may { (pos < (caught_up seat.old.me.0 id mine.now.entries).seen) × MayWalk (caught_up seat.old.me.0 id mine.now.entries) pos }
    ensures seat { (seat.new.table_id ≡ seat.old.table_id) × (seat.new.id ≡ seat.old.id) }
    ensures saw { SawCell (capacity (key_of board.now.key)) pos index (caught_up seat.old.me.0 id mine.now.entries) seat.old.me.1 result seat.new.me }
{
    board.load::<SeesCell<B>>(seat, 3076 + 5 * cell + index)
}

// Loads the last word of the event at a position, which tells the event.
pub fn load_event<B: Told>(
    board: &Board,
    seat: &mut Seat,
    id: u8,
    mine: &OwnList,
    pos: u64,
    cell: usize,
) -> u64
    requires table { OfTable seat.old.table_id board.now.table_id (key_of board.now.key) }
    requires ready { IsReady seat.old.me.0 id mine.now.entries }
    requires told { (B.view ≡ caught_up seat.old.me.0 id mine.now.entries) × (B.key ≡ key_of board.now.key) × (B.object ≡ pos) }
    requires near { (cell ≡ pos % capacity (key_of board.now.key)) × (cell < capacity (key_of board.now.key)) × (cell < 2 ^ 32) }
    requires may { (pos < (caught_up seat.old.me.0 id mine.now.entries).seen) × MayWalk (caught_up seat.old.me.0 id mine.now.entries) pos }
    ensures seat { (seat.new.table_id ≡ seat.old.table_id) × (seat.new.id ≡ seat.old.id) }
    ensures saw { SawEvent (capacity (key_of board.now.key)) pos (caught_up seat.old.me.0 id mine.now.entries) seat.old.me.1 result seat.new.me }
{
    board.load::<SeesEvent<B>>(seat, 3076 + 5 * cell + 4)
}

// A load by the seat that has all lists, which tells what the record of them is.
pub fn load_last<B: Told>(board: &Board, seat: &mut Seat)
    requires table { OfTable seat.old.table_id board.now.table_id (key_of board.now.key) }
    requires told { (B.view ≡ seat.old.me.0) × (B.key ≡ key_of board.now.key) }
    ensures closed { ClosedTold (key_of board.now.key) seat.old.me.0 seat.new.me }
{
    board.load::<Closes<B>>(seat, 0);
}
