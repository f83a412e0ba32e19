// A lawful record of a program's run, and what is said of its races.
ghost use Rattle.std.specs.Prelude.{◌≡◌, IfOk, map};
ghost use Rattle.gl_asm.specs.Texts.{IsText};
ghost use Rattle.gl_bytecode.specs.Lawful.{Lawful};
ghost use Rattle.gl_model.specs.Lists.{lists_of};

use crate::facts::{Explanation, Handed, Leading, Side};
use gl_audited::Audited;
use gl_causes::{Cause, causes, first_handing, is_plain, owned_at, writes_to};
use gl_model::Entry;
use gl_places::Place;
use gl_sites::{Maker, SourceLine, line_of, maker_at, makers_of};
use std::alloc::{AllocError, Global};
use std::marker::Model;

/// A lawful record of a program's run, with the text of the program and what made each entry.
#[derive(Drop)]
pub struct Run<'a> {
    text: &'a [u8],
    audited: &'a Audited,
    makers: Vec<Vec<Maker>>,
}

impl<'a> Model for Run<'a> {
    ghost use Rattle.std.specs.Prelude.{map};
    ghost use Rattle.gl_pages.specs.LawfulRun.{LawfulRun, IsMade, run_of};

    ghost Value = { LawfulRun };

    ghost view = { λ r. run_of r.text.now r.audited.now };

    ghost invariant = { λ r. IsMade (run_of r.text.now r.audited.now) (map (λ v. v.items) r.makers.items) };
}

impl<'a> Run<'a> {
    ghost use Rattle.std.specs.Prelude.{◌≡◌, IfOk, MatchOption, None, option_map, slice_get};
    ghost use Rattle.gl_model.specs.Entries.{Entry as AnEntry, seen as seen_entry};
    ghost use Rattle.gl_model.specs.Records.{EntryAt};
    ghost use Rattle.gl_places.specs.Places.{seen};
    ghost use Rattle.gl_causes.specs.Causes.{IsCause};
    ghost use Rattle.gl_pages.specs.Explained.{AreExplained, IsExplained, IsHandedOn, IsLedBy, IsSide, IsSource, cause_of};
    ghost use Rattle.gl_pages.specs.LawfulRun.{lists_in, run_of};

    /// The run of a record that is lawful for the program that the text says.
    pub fn new(alloc: Global, text: &'a [u8], audited: &'a Audited) -> Result<Run<'a>, AllocError>
        requires text { IsText text.now audited.now.program audited.now.inputs }
        requires lawful { Lawful audited.now.program audited.now.inputs audited.now.steps (lists_of audited.now.record) }
        ensures { IfOk result (λ r. r ≡ run_of text.now audited.now) }
    {
        let _main = audited.program.main();
        let makers = makers_of(alloc, &audited.program, audited.steps, &audited.record)?;
        Ok(Run {
            text,
            audited,
            makers,
        })
    }

    // The entry there, if there is one.
    fn entry(&self, place: Place) -> Option<&Entry>
        ensures { MatchOption result (slice_get (lists_in self.now place.thread) place.index ≡ None) (λ e. EntryAt (lists_in self.now) (seen place) (seen_entry e.now)) }
    {
        match self.audited.record.thread(place.thread) {
            Some(list) => list.get(place.index as usize),
            None => None,
        }
    }

    // The line of the instruction that made the entry there, if there is such a line.
    fn source(&self, place: Place) -> Option<SourceLine<'a>>
        ensures { IsSource self.now (seen place) result }
    {
        match maker_at(&self.makers, place) {
            Some(Maker::Instruction(site)) => line_of(self.text, site.function, site.place),
            Some(Maker::NoInstruction) => None,
            Some(Maker::Note) => None,
            None => None,
        }
    }

    // What is said of the access there, of a race on the variable.
    fn side(&self, alloc: Global, place: Place, var: u16) -> Result<Side<'a>, AllocError>
        requires { (e : AnEntry) × EntryAt (lists_in self.now) (seen place) e }
        ensures place { IfOk result (λ s. s.place ≡ place) }
        ensures side { IfOk result (IsSide self.now var) }
    {
        let Some(entry) = self.entry(place) else {
            unreachable!()
        };
        Ok(Side {
            place,
            plain: is_plain(entry),
            write: writes_to(entry, var),
            source: self.source(place),
            owned: owned_at(alloc, &self.audited.record, place)?,
        })
    }

    // Where the thread first hands on what it did at the place.
    fn handed(&self, place: Place) -> Option<Handed<'a>>
        ensures { IsHandedOn self.now (seen place) result }
    {
        match first_handing(&self.audited.record, place) {
            Some(handing) => Some(Handed {
                handing,
                source: self.source(handing.place),
            }),
            None => None,
        }
    }

    // The last entry that leads to the refused one, with its line.
    fn leading(&self, place: Option<Place>) -> Option<Leading<'a>>
        ensures place { option_map (λ l. l.place) result ≡ place }
        ensures source { IsLedBy self.now result }
    {
        match place {
            Some(place) => Some(Leading {
                place,
                source: self.source(place),
            }),
            None => None,
        }
    }

    // What is said of the refused entry that has this cause.
    fn explanation(&self, alloc: Global, cause: &Cause) -> Result<Explanation<'a>, AllocError>
        requires { IsCause (lists_in self.now) cause.now }
        ensures cause { IfOk result (λ e. cause_of e ≡ cause.now) }
        ensures right { IfOk result (IsExplained self.now) }
    {
        Ok(Explanation {
            at: self.side(alloc, cause.at, cause.var)?,
            var: cause.var,
            other: self.side(alloc, cause.other, cause.var)?,
            others: cause.others,
            handed: self.handed(cause.other),
            leading: self.leading(cause.leading),
        })
    }

    /// What is said of the races of the run, of each one, by thread and then by place. The only error is want of memory.
    pub fn explained(&self, alloc: Global) -> Result<Vec<Explanation<'a>>, AllocError>
        ensures { IfOk result (λ es. AreExplained self.now es.items) }
    {
        let causes = causes(alloc, &self.audited.record)?;
        let mut explained = Vec::new(alloc);
        for cause in &causes {
            explained.push(self.explanation(alloc, cause)?)?;
        }
        Ok(explained)
    }
}
