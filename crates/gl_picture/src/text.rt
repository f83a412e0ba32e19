// The text of a picture.
ghost use Rattle.std.specs.Prelude.{◌≡◌, ◌++◌, ◌%◌, ◌==◌, if◌then◌else◌, OnOk};
ghost use Rattle.std.specs.List.{flat_map};
ghost use Rattle.gl_names.specs.Names.{name_of};
ghost use Rattle.gl_picture.specs.Shapes.{y_of};
ghost use Rattle.gl_picture.specs.Texts.{arrow_text, arrows_text, closing_text, column_text, frame_text, left_text, picture_text, quiet_text, race_text, row_text, size_of, titles_text};

use crate::bends::push_bend;
use crate::elements::{push_circle, push_line, push_opening, push_words};
use crate::escape::push;
use crate::labels::{item_label, left_label, racing_label, thread_label};
use crate::picture::{Cell, Column, HALF, Picture, Row, Spot};
use crate::positions::{cell_at, cell_of, spot_of, x_of, y_of};
use gl_explain::Explanation;
use gl_names::Names;
use itoa::Buffer;
use std::alloc::{AllocError, Global};

// The race in two lines.
#[tactic(auto, unfolding(crate::specs::Texts::titles_text))]
fn push_titles(
    alloc: Global,
    out: &mut Vec<u8>,
    names: &Names<'_>,
    e: &Explanation,
) -> Result<(), AllocError>
    ensures { OnOk result (out.new.items ≡ out.old.items ++ titles_text (name_of names.now) e.now) }
{
    let race = racing_label(alloc, names, "", e.var, &e.at)?;
    let other = racing_label(alloc, names, "races with ", e.var, &e.other)?;
    push_words(out, "class='said'", Spot { x: 10, y: 22 }, race.as_bytes())?;
    push_words(out, "class='said'", Spot { x: 10, y: 40 }, other.as_bytes())
}

// How high the thread of a column is written: each second one higher.
fn head_of(at: u8) -> u32
    ensures { result ≡ (if at % 2 == 0 then 82 else 66) }
{
    if at % 2 == 0 { 82 } else { 66 }
}

// A column.
#[tactic(auto, unfolding(crate::specs::Texts::column_text))]
fn push_column(
    alloc: Global,
    out: &mut Vec<u8>,
    names: &Names<'_>,
    bottom: u32,
    column: &Column,
) -> Result<(), AllocError>
    ensures { OnOk result (out.new.items ≡ out.old.items ++ column_text (name_of names.now) bottom column.now) }
{
    let x = x_of(column.at);
    let label = thread_label(alloc, names, column.thread)?;
    let y = head_of(column.at);
    push_line(
        out,
        "class='life'",
        Spot { x, y: 90 },
        Spot { x, y: bottom },
    )?;
    push_words(out, "class='head'", Spot { x, y }, label.as_bytes())
}

// All columns.
fn push_columns(
    alloc: Global,
    out: &mut Vec<u8>,
    names: &Names<'_>,
    p: &Picture,
) -> Result<(), AllocError>
    ensures { OnOk result (out.new.items ≡ out.old.items ++ flat_map (column_text (name_of names.now) (y_of p.now.height)) p.now.columns.items) }
{
    let bottom = y_of(p.height);
    for column in &p.columns {
        push_column(alloc, out, names, bottom, column)?;
    }
    Ok(())
}

// An arrow from row i.
#[tactic(auto, unfolding(crate::specs::Texts::arrow_text))]
fn push_arrow(out: &mut Vec<u8>, p: &Picture, to: Cell, i: usize) -> Result<(), AllocError>
    ensures { OnOk result (out.new.items ≡ out.old.items ++ arrow_text p.now to i) }
{
    push_bend(out, cell_at(p, i), to)
}

// The arrows that lead to a row.
#[tactic(auto, unfolding(crate::specs::Texts::arrows_text))]
fn push_arrows_to(out: &mut Vec<u8>, p: &Picture, row: &Row) -> Result<(), AllocError>
    ensures { OnOk result (out.new.items ≡ out.old.items ++ arrows_text p.now row.now) }
{
    let to = cell_of(&p.columns, row);
    for i in &row.from {
        push_arrow(out, p, to, *i)?;
    }
    Ok(())
}

// All arrows.
fn push_arrows(out: &mut Vec<u8>, p: &Picture) -> Result<(), AllocError>
    ensures { OnOk result (out.new.items ≡ out.old.items ++ flat_map (arrows_text p.now) p.now.rows.items) }
{
    for row in &p.rows {
        push_arrows_to(out, p, row)?;
    }
    Ok(())
}

// The two accesses that race.
#[tactic(auto, unfolding(crate::specs::Texts::race_text))]
fn push_race(out: &mut Vec<u8>, p: &Picture) -> Result<(), AllocError>
    ensures { OnOk result (out.new.items ≡ out.old.items ++ race_text p.now) }
{
    let other = spot_of(cell_at(p, p.other));
    let race = spot_of(cell_at(p, p.race));
    push_line(out, "class='race'", other, race)?;
    push_circle(out, "class='mark' r='9'", other)?;
    push_circle(out, "class='mark' r='9'", race)
}

// A row.
#[tactic(auto, unfolding(crate::specs::Texts::row_text))]
fn push_row(
    alloc: Global,
    out: &mut Vec<u8>,
    names: &Names<'_>,
    columns: &[Column],
    row: &Row,
) -> Result<(), AllocError>
    ensures { OnOk result (out.new.items ≡ out.old.items ++ row_text (name_of names.now) columns.now row.now) }
{
    let label = item_label(alloc, names, &row.told.item)?;
    let y = y_of(row.slot);
    let point = spot_of(cell_of(columns, row));
    let mut number = Buffer::new();
    let number = number.format(row.told.line);
    push_words(
        out,
        "class='line' dy='4'",
        Spot { x: 60, y },
        number.as_bytes(),
    )?;
    push_circle(out, "r='4'", point)?;
    push_words(out, "dx='16' dy='4'", point, label.as_bytes())
}

// All rows.
fn push_rows(
    alloc: Global,
    out: &mut Vec<u8>,
    names: &Names<'_>,
    p: &Picture,
) -> Result<(), AllocError>
    ensures { OnOk result (out.new.items ≡ out.old.items ++ flat_map (row_text (name_of names.now) p.now.columns.items) p.now.rows.items) }
{
    for row in &p.rows {
        push_row(alloc, out, names, &p.columns, row)?;
    }
    Ok(())
}

// How many lines are left out, where some are.
#[tactic(auto, unfolding(crate::specs::Texts::left_text))]
fn push_left(alloc: Global, out: &mut Vec<u8>, left_out: usize) -> Result<(), AllocError>
    ensures { OnOk result (out.new.items ≡ out.old.items ++ left_text left_out) }
{
    if left_out == 0 {
        return Ok(());
    }
    let label = left_label(alloc, left_out)?;
    let y = y_of(HALF as u16);
    push_words(
        out,
        "class='note' dy='4'",
        Spot { x: 10, y },
        label.as_bytes(),
    )
}

// What was judged, and the end.
#[tactic(auto, unfolding(crate::specs::Texts::closing_text))]
fn push_closing(out: &mut Vec<u8>, y: u32) -> Result<(), AllocError>
    ensures { OnOk result (out.new.items ≡ out.old.items ++ closing_text y) }
{
    push_words(
        out,
        "class='note'",
        Spot { x: 10, y },
        b"only this observed order of steps was judged",
    )?;
    push(out, "</svg>\n")
}

// The room for the words of a row behind the last column.
const LABEL_ROOM: u32 = 330;

// The room for a title.
const TITLE_ROOM: u32 = 1020;

// The room below the rows.
const FOOT_ROOM: u32 = 34;

// How wide and how high the picture is.
fn size_of(p: &Picture) -> Spot
    ensures { result ≡ size_of p.now }
{
    let x = x_of(p.width);
    let y = y_of(p.height);
    Spot {
        x: (x + LABEL_ROOM).max(TITLE_ROOM),
        y: y + FOOT_ROOM,
    }
}

// What stands behind the rows.
#[tactic(auto, unfolding(crate::specs::Texts::frame_text))]
fn push_frame(
    alloc: Global,
    out: &mut Vec<u8>,
    names: &Names<'_>,
    e: &Explanation,
    p: &Picture,
) -> Result<(), AllocError>
    ensures { OnOk result (out.new.items ≡ out.old.items ++ frame_text (name_of names.now) e.now p.now) }
{
    push_opening(out, size_of(p))?;
    push_titles(alloc, out, names, e)?;
    push_columns(alloc, out, names, p)?;
    push_arrows(out, p)?;
    push_race(out, p)
}

/// Adds the picture.
#[tactic(auto, unfolding(crate::specs::Texts::picture_text))]
pub fn push_picture(
    alloc: Global,
    out: &mut Vec<u8>,
    names: &Names<'_>,
    e: &Explanation,
    p: &Picture,
) -> Result<(), AllocError>
    ensures { OnOk result (out.new.items ≡ out.old.items ++ picture_text (name_of names.now) e.now p.now) }
{
    push_frame(alloc, out, names, e, p)?;
    push_rows(alloc, out, names, p)?;
    push_left(alloc, out, p.left_out)?;
    push_closing(out, y_of(p.height) + 20)
}

/// Adds the picture of a trace without a race.
#[tactic(auto, unfolding(crate::specs::Texts::quiet_text))]
pub fn push_quiet(out: &mut Vec<u8>) -> Result<(), AllocError>
    ensures { OnOk result (out.new.items ≡ out.old.items ++ quiet_text) }
{
    push_opening(out, Spot { x: 380, y: 60 })?;
    push_words(out, "class='note'", Spot { x: 10, y: 22 }, b"races 0")?;
    push_closing(out, 40)
}
