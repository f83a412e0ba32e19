// Infos that are moved up to a position.
ghost use Rattle.std.specs.Prelude.{◌≡◌, ℕ, ◌+◌, ◌≤◌, All, Some, length};
ghost use Rattle.gl_model.specs.declared.row.Info.{Info as AnInfo};
ghost use Rattle.gl_model.specs.Elements.{IsStampInRange};
ghost use Rattle.gl_draws.specs.RowFacts.{read_of};
ghost use Rattle.gl_rule.specs.Values.{InRow};
ghost use Rattle.gl_rows.specs.Moving.{IsMovedTo, AreMovedTo, IsRowMovedTo};

use gl_judge::walk;
use gl_model::{Info, Row, Stamp};

// The window goes from a position up to the one to which the Info is moved, where it stands before that.
fn move_info(info: &mut Info, from: u64, to: u64, window: &[Stamp])
    requires stamps { All IsStampInRange window.now }
    requires ends { from + length window.now ≡ to }
    requires behind { from ≤ info.old.pos }
    ensures { IsMovedTo from to window.now info.old info.new }
{
    if info.pos < to {
        info.set = walk(info, &window[(info.pos - from) as usize..]);
        info.pos = to;
    }
}

fn move_kept(kept: &mut Option<Info>, from: u64, to: u64, window: &[Stamp])
    requires stamps { All IsStampInRange window.now }
    requires ends { from + length window.now ≡ to }
    requires behind { (i : AnInfo) → kept.old ≡ Some i → from ≤ i.pos }
    ensures { AreMovedTo from to window.now kept.old kept.new }
{
    if let Some(info) = kept {
        move_info(info, from, to, window);
    }
}

fn move_reads(reads: &mut [Option<Info>], from: u64, to: u64, window: &[Stamp])
    requires stamps { All IsStampInRange window.now }
    requires ends { from + length window.now ≡ to }
    requires behind { (t : ℕ) (i : AnInfo) → read_of reads.old t ≡ Some i → from ≤ i.pos }
    ensures { (t : ℕ) → AreMovedTo from to window.now (read_of reads.old t) (read_of reads.new t) }
{
    for read in reads.iter_mut() {
        move_kept(read, from, to, window);
    }
}

// Each Info of the row that stands before a position is moved up to it. The window goes up to that one, from a position before which none
// stands.
pub(crate) fn move_row(row: &mut Row, from: u64, to: u64, window: &[Stamp])
    requires stamps { All IsStampInRange window.now }
    requires ends { from + length window.now ≡ to }
    requires behind { (i : AnInfo) → InRow row.old i → from ≤ i.pos }
    ensures { IsRowMovedTo from to window.now row.old row.new }
{
    move_kept(&mut row.last_write, from, to, window);
    move_reads(&mut row.reads, from, to, window);
}
