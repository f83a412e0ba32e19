use crate::alone::is_formed;
use crate::drawn::Drawn;
use crate::last::{low_rises, position_rises};
use crate::rights::Rights;
use crate::stage::Stage;
use gl_model::Entry;
use std::alloc::{AllocError, Global};

/// What is kept of the entries of a list so far.
#[derive(Drop)]
pub(crate) struct Walk {
    pub stage: Stage,
    pub position: Option<u64>,
    pub low: Option<u64>,
    pub drawn: Drawn,
    pub rights: Rights,
}

impl Walk {
    ghost use Rattle.std.specs.Prelude.{◌+◌, ◌<◌, ◌^◌, List, IfOk};
    ghost use Rattle.gl_model.specs.Entries.{Entry as SeenEntry, seen};
    ghost use Rattle.gl_model.specs.Kept.{IsEntryKept};
    ghost use Rattle.gl_form.specs.Come.{HasCome, SaysOver, WalksOn};

    /// At the head of a list.
    pub(crate) fn new(alloc: Global) -> Result<Walk, AllocError>
        ensures { IfOk result (λ walk. (es : List SeenEntry) → HasCome es 0 walk) }
    {
        Ok(Walk {
            stage: Stage::Fresh,
            position: None,
            low: None,
            drawn: Drawn::new(alloc)?,
            rights: Rights::new(alloc)?,
        })
    }

    /// Whether the rules of form are kept where the next entry of the thread stands, which is at this place of its list.
    pub(crate) fn takes(&mut self, thread: u8, index: usize, entry: &Entry) -> bool
        requires kept { IsEntryKept (seen entry.now) }
        requires within { index + 1 < 2 ^ 64 }
        ensures { WalksOn thread (seen entry.now) index result self.old self.new }
    {
        if !is_formed(thread, entry) {
            return false;
        }
        let Some(stage) = self.stage.after(entry) else {
            return false;
        };
        self.stage = stage;
        if !position_rises(&mut self.position, entry) {
            return false;
        }
        if !low_rises(&mut self.low, entry) {
            return false;
        }
        if !self.drawn.rises(entry) {
            return false;
        }
        self.rights.allow(index, entry)
    }

    /// Whether an Over came.
    pub(crate) fn is_over(&self) -> bool
        ensures { SaysOver self.now result }
    {
        match self.stage {
            Stage::Over => true,
            Stage::Fresh | Stage::Running | Stage::Ended => false,
        }
    }
}
