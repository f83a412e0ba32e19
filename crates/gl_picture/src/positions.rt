// Where things are drawn.
ghost use Rattle.std.specs.Prelude.{◌≡◌};
ghost use Rattle.gl_picture.specs.Shapes.{spot_of, x_of, y_of};
ghost use Rattle.gl_picture.specs.Texts.{cell_at, cell_of, column_of};

use crate::picture::{Cell, Column, Picture, Row, Spot};

/// Where the first column stands: behind half of the longest head of a column.
pub const MARGIN: u32 = 190;

/// How far columns stand apart.
pub const COLUMN_STEP: u32 = 190;

/// Where the first row stands.
pub const TOP: u32 = 112;

/// How far rows stand apart.
pub const ROW_STEP: u32 = 26;

/// Where a column stands.
pub fn x_of(column: u8) -> u32
    ensures { result ≡ x_of column }
{
    MARGIN + COLUMN_STEP * u32::from(column)
}

/// Where a row stands.
pub fn y_of(slot: u16) -> u32
    ensures { result ≡ y_of slot }
{
    TOP + ROW_STEP * u32::from(slot)
}

// The column of the thread.
fn column_of(thread: u8, columns: &[Column]) -> u8
    ensures { result ≡ column_of thread columns.now }
{
    for column in columns {
        if column.thread == thread {
            return column.at;
        }
    }
    0
}

/// The column and the row of a row's point.
#[tactic(auto, unfolding(crate::specs::Texts::cell_of))]
pub fn cell_of(columns: &[Column], row: &Row) -> Cell
    ensures { result ≡ cell_of columns.now row.now }
{
    Cell {
        column: column_of(row.told.thread, columns),
        slot: row.slot,
    }
}

/// Those of row i.
#[tactic(auto, unfolding(crate::specs::Texts::cell_at))]
pub fn cell_at(picture: &Picture, i: usize) -> Cell
    ensures { result ≡ cell_at picture.now i }
{
    match picture.rows.get(i) {
        None => Cell { column: 0, slot: 0 },
        Some(row) => cell_of(&picture.columns, row),
    }
}

/// Where a row's point is.
#[tactic(auto, unfolding(crate::specs::Shapes::spot_of))]
pub fn spot_of(cell: Cell) -> Spot
    ensures { result ≡ spot_of cell }
{
    Spot {
        x: x_of(cell.column),
        y: y_of(cell.slot),
    }
}
