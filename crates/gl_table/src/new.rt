// The beginning of a table.
ghost use Rattle.std.specs.Prelude.{◌≡◌, ◌+◌, ◌-◌, ◌*◌, ◌<◌, [], IfOk, IfErr};
ghost use Rattle.std.specs.List.{All};
ghost use Rattle.gl_model.specs.declared.limits.TheConstants.{THREADS, FUNCTIONS};
ghost use Rattle.gl_rule.specs.Objects.{word_count};
ghost use Rattle.gl_rule.specs.Opened.{first_slots, shelves_from, empty_shelves};
ghost use Rattle.gl_rule.specs.View.{blank};
ghost use Rattle.gl_segments.specs.Rings.{IsRing};
ghost use Rattle.gl_state.specs.Starting.{first_state};
ghost use Rattle.gl_table.specs.Beginning.{fresh, fresh_from};
ghost use Rattle.gl_table.specs.KeyOf.{key_of};
ghost use Rattle.gl_table.specs.OfTable.{IsTable};
ghost use Rattle.gl_table.specs.Words.{no_words};

use crate::layout::Layout;
use crate::moves::{Board, Seat};
use crate::own_list::OwnList;
use crate::pass::Pass;
use crate::rule::{Cut, Order};
use crate::shared::Shared;
use atomic_table::Table;
use gl_rule::{Know, Slot};
use gl_segments::Ring;
use gl_state::{KeptRow, ListState};
use std::alloc::{AllocError, Global};

const PASSES: u8 = 16;

const ROWS: u16 = 1024;

const OBJECTS: usize = 1025;

pub(crate) type Owned = Table<Slot, Know, Layout, Order, Global>;

// The words of the table: three of each object, the stop word, and five of each cell.
fn words_of(alloc: Global, ring: Ring) -> Result<Vec<u64>, AllocError>
    requires ring { IsRing ring }
    ensures { IfOk result (λ v. v.items ≡ no_words (word_count (ring.segments * ring.cells))) }
{
    let count = 3076 + 5 * ring.len() as usize;
    let mut words = Vec::with_capacity(alloc, count)?;
    for _ in 0..count {
        words.push_reserved(0);
    }
    Ok(words)
}

// The list's state and the rows, each in its slot.
fn slots_of(alloc: Global, main: u16) -> Result<Vec<Slot>, AllocError>
    ensures { IfOk result (λ v. v.items ≡ first_slots (first_state main)) }
{
    let mut slots = Vec::with_capacity(alloc, OBJECTS)?;
    slots.push_reserved(Slot::List(ListState::new(alloc, main)?));
    for _ in 0..ROWS {
        slots.push_reserved(Slot::Row(KeptRow::empty(alloc)?));
    }
    Ok(slots)
}

// The table with its first seat, which has the lists of all threads.
fn lay(alloc: Global, layout: &Layout) -> Result<(Owned, Seat), AllocError>
    requires ring { IsRing layout.now.ring }
    ensures table { IfOk result (λ r. IsTable r.0.shared.table_id (key_of layout.now) × (r.0.shared.key ≡ layout.now)) }
    ensures seat { IfOk result (λ r. (r.1.table_id ≡ r.0.shared.table_id) × (r.1.me ≡ (blank empty_shelves, []))) }
{
    let words = words_of(alloc, layout.ring)?;
    let slots = slots_of(alloc, layout.main)?;
    match Table::new(alloc, words.as_slice(), slots, layout) {
        Ok(made) => Ok(made),
        Err(_) => Err(AllocError),
    }
}

// The pass of the thread `id`, cut from the seat that has the lists from there on.
fn cut_pass(board: &Board, seat: &mut Seat, id: u8, alloc: Global) -> Result<Pass, AllocError>
    requires table { (seat.old.table_id ≡ board.now.table_id) × IsTable board.now.table_id (key_of board.now.key) }
    requires view { seat.old.me ≡ (blank (shelves_from id (16 - id)), []) }
    requires named { id < THREADS }
    ensures seat { IfOk result (λ p. (seat.new.table_id ≡ seat.old.table_id) × (seat.new.me ≡ (blank (shelves_from (id + 1) (15 - id)), []))) }
    ensures pass { IfOk result (λ p. p ≡ fresh board.now.table_id id) }
{
    let order = Vec::with_capacity(alloc, OBJECTS)?;
    let mine = OwnList::empty(alloc)?;
    Ok(Pass {
        seat: board.split_seat::<Cut>(seat),
        id,
        mine,
        seen: 0,
        quiet: false,
        order,
    })
}

// The table with its passes.
fn begin(alloc: Global, layout: &Layout) -> Result<(Owned, Vec<Pass>), AllocError>
    requires ring { IsRing layout.now.ring }
    ensures table { IfOk result (λ r. IsTable r.0.shared.table_id (key_of layout.now) × (r.0.shared.key ≡ layout.now)) }
    ensures passes { IfOk result (λ r. r.1.items ≡ fresh_from r.0.shared.table_id 0 16) }
{
    let mut passes = Vec::with_capacity(alloc, 16)?;
    let (table, mut seat) = lay(alloc, layout)?;
    for id in 0..PASSES {
        passes.push_reserved(cut_pass(&table.shared, &mut seat, id, alloc)?);
    }
    Ok((table, passes))
}

impl Shared {
    /// A table with its 16 passes, numbered from 0. The Err hands the layout back.
    pub fn new(alloc: Global, layout: Layout) -> Result<(Shared, Vec<Pass>), (Layout, AllocError)>
        requires ring { IsRing layout.ring }
        requires main { layout.main < FUNCTIONS }
        requires starts { All (λ f. f < FUNCTIONS) layout.starts.items }
        ensures key { IfOk result (λ r. r.0.key ≡ key_of layout) }
        ensures passes { IfOk result (λ r. r.1.items ≡ fresh_from r.0.id 0 16) }
        ensures err { IfErr result (λ e. e.0 ≡ layout) }
    {
        match begin(alloc, &layout) {
            Ok((table, passes)) => Ok((Shared { table, layout }, passes)),
            Err(error) => Err((layout, error)),
        }
    }
}
