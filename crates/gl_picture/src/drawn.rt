// What of a trace is drawn.
ghost use Rattle.std.specs.Prelude.{◌≡◌, ◌<◌, ◌≤◌, ◌+◌, ◌++◌, IfOk, OnOk, Some, length, slice_get};
ghost use Rattle.gl_model.specs.declared.limits.TheConstants.{THREADS};
ghost use Rattle.gl_explain.specs.declared.told.Explanation.{Explanation as AnExplanation};
ghost use Rattle.gl_explain.specs.First.{IsFirstRace};
ghost use Rattle.gl_explain.specs.Told.{told_of};
ghost use Rattle.gl_picture.specs.Arrows.{AreNarrow, HasRow};
ghost use Rattle.gl_picture.specs.Drawn.{AreColumns, AreRows, IsDrawn, IsPicture, IsRow, rows_of, slot_of, span};

use crate::arrows::{arrows_to, has_row};
use crate::picture::{Column, HALF, LEAD, Picture, Row};
use gl_explain::{First, Kept, Told};
use gl_model::THREADS;
use std::alloc::{AllocError, Global};

// Adds the lines.
fn add(rows: &mut Vec<Told>, lines: &[Kept]) -> Result<(), AllocError>
    ensures { OnOk result (rows.new.items ≡ rows.old.items ++ told_of lines.now) }
{
    for k in lines {
        rows.push(k.told)?;
    }
    Ok(())
}

// The lines that are drawn.
fn rows_of(alloc: Global, lines: &[Kept]) -> Result<Vec<Told>, AllocError>
    ensures rows { IfOk result (λ rows. rows.items ≡ rows_of (told_of lines.now)) }
    ensures few { IfOk result (λ rows. length rows.items ≤ HALF + HALF) }
{
    let mut rows = Vec::new(alloc);
    if lines.len() <= HALF + HALF {
        add(&mut rows, lines)?;
    } else {
        let (front, _) = lines.split_at(HALF);
        let (_, back) = lines.split_at(lines.len() - HALF);
        add(&mut rows, front)?;
        add(&mut rows, back)?;
    }
    Ok(rows)
}

// How many rows stand above this one, with the note.
fn slot(left_out: usize, i: usize) -> u16
    requires { i ≤ HALF + HALF }
    ensures { result ≡ slot_of left_out i }
{
    if left_out == 0 {
        i as u16
    } else if i < HALF {
        i as u16
    } else {
        (i + 1) as u16
    }
}

// One row.
fn row(alloc: Global, rows: &[Told], left_out: usize, i: usize) -> Result<Row, AllocError>
    requires few { length rows.now ≤ HALF + HALF }
    requires row { i < length rows.now }
    requires narrow { AreNarrow rows.now }
    ensures { IfOk result (IsRow rows.now left_out i) }
{
    Ok(Row {
        told: rows[i],
        slot: slot(left_out, i),
        from: arrows_to(alloc, rows, i)?,
    })
}

// All rows.
fn all_rows(alloc: Global, rows: &[Told], left_out: usize) -> Result<Vec<Row>, AllocError>
    requires few { length rows.now ≤ HALF + HALF }
    requires narrow { AreNarrow rows.now }
    ensures { IfOk result (λ drawn. AreRows rows.now left_out drawn.items) }
{
    let mut drawn = Vec::new(alloc);
    for i in 0..rows.len() {
        let row = row(alloc, rows, left_out, i)?;
        drawn.push(row)?;
    }
    Ok(drawn)
}

// The columns.
fn columns(alloc: Global, rows: &[Told]) -> Result<Vec<Column>, AllocError>
    ensures columns { IfOk result (λ cs. AreColumns (λ t. HasRow rows.now t 0 (length rows.now)) THREADS cs.items) }
    ensures few { IfOk result (λ cs. length cs.items ≤ THREADS) }
{
    let mut columns = Vec::new(alloc);
    let mut at = 0;
    for thread in 0..THREADS {
        if has_row(rows, thread, 0, rows.len()) {
            columns.push(Column { thread, at })?;
            at += 1;
        }
    }
    Ok(columns)
}

// The rows that are marked.
#[derive(Clone, Copy)]
struct Marked {
    other: usize,
    race: usize,
}

// The picture of these rows.
fn drawn(
    alloc: Global,
    rows: &[Told],
    left_out: usize,
    marked: Marked,
) -> Result<Picture, AllocError>
    requires few { length rows.now ≤ HALF + HALF }
    requires narrow { AreNarrow rows.now }
    requires last { marked.race + 1 ≡ length rows.now }
    ensures { (e : AnExplanation) → slice_get rows.now marked.other ≡ Some e.other → slice_get rows.now marked.race ≡ Some e.at → IfOk result (IsDrawn rows.now left_out e) }
{
    let columns = columns(alloc, rows)?;
    let width = columns.len() as u8;
    Ok(Picture {
        columns,
        width,
        rows: all_rows(alloc, rows, left_out)?,
        height: slot(left_out, rows.len()),
        left_out,
        other: marked.other,
        race: marked.race,
    })
}

// The lines from the first that is drawn up to the race.
fn span(kept: &[Kept], place: usize, race: usize) -> &[Kept]
    requires { (place ≤ race) × (race < length kept.now) }
    ensures { result.now ≡ span place race kept.now }
{
    let (lines, _) = kept.split_at(race + 1);
    let (_, lines) = lines.split_at(place.saturating_sub(LEAD));
    lines
}

/// The picture of the first race of these lines.
pub fn picture_of(alloc: Global, kept: &[Kept], first: &First) -> Result<Picture, AllocError>
    requires first { IsFirstRace (told_of kept.now) first.now }
    requires narrow { AreNarrow (told_of kept.now) }
    ensures { IfOk result (IsPicture (told_of kept.now) first.now) }
{
    let place = first.explanation.place;
    let lines = span(kept, place, first.race);
    let rows = rows_of(alloc, lines)?;
    let left_out = lines.len().saturating_sub(HALF + HALF);
    let marked = Marked {
        other: place - place.saturating_sub(LEAD),
        race: rows.len() - 1,
    };
    drawn(alloc, &rows, left_out, marked)
}
