// A closed table. Only `close` makes one.
ghost use Rattle.std.specs.Prelude.{◌≡◌};
ghost use Rattle.gl_model.specs.Lawful.{IsLawful};
ghost use Rattle.gl_model.specs.Lists.{lists_of};
ghost use Rattle.gl_rule.specs.Bounded.{IsBounded};
ghost use Rattle.gl_table.specs.Ending.{IsTrimmed};
ghost use Rattle.gl_table.specs.KeyOf.{key_of};

use crate::layout::Layout;
use gl_model::Record;
use gl_segments::Ring;
use std::marker::Model;

/// The record of a run, and what its table was set up with. That the record is lawful in all that does not speak of the program is
/// said by its type.
#[derive(Drop)]
pub struct Sealed {
    record: Record,
    layout: Layout,
}

impl Model for Sealed {
    ghost use Rattle.gl_table.specs.SealedView.{SealedView};

    ghost Value = { SealedView };

    ghost use Rattle.gl_table.specs.SealedInside.{sealed_view, IsSealed};

    ghost view = { sealed_view };

    ghost invariant = { IsSealed };
}

impl Sealed {
    pub(crate) fn of(whole: Record, layout: Layout) -> Sealed
        requires lawful { IsLawful (key_of layout).setting (lists_of whole) }
        requires trims { IsTrimmed (key_of layout) (lists_of whole) }
        requires bounded { IsBounded (lists_of whole) }
        ensures { (result.entries ≡ whole) × (result.key ≡ key_of layout) }
    {
        Sealed {
            record: whole,
            layout,
        }
    }

    /// The lists of the threads that began. They are lawful in all that does not speak of the program, their Trims are those of the ring,
    /// and their positions, numbers and low marks are below 2^56.
    pub fn record(&self) -> &Record
        ensures is { result.now ≡ self.now.entries }
        ensures lawful { IsLawful self.now.key.setting (lists_of self.now.entries) }
        ensures trims { IsTrimmed self.now.key (lists_of self.now.entries) }
        ensures bounded { IsBounded (lists_of self.now.entries) }
    {
        &self.record
    }

    /// The ring of the table.
    pub fn ring(&self) -> Ring
        ensures { (result.segments ≡ self.now.key.segments) × (result.cells ≡ self.now.key.cells) }
    {
        self.layout.ring
    }
}
