// What a table was set up with.
ghost use Rattle.std.specs.Prelude.{◌≡◌, ◌<◌, ℕ, Contains};
ghost use Rattle.gl_model.specs.declared.limits.TheConstants.{FUNCTIONS};

use crate::shared::Shared;
use gl_model::{Classes, Inputs};

impl Shared {
    /// The classes of the program.
    pub fn classes(&self) -> &Classes
        ensures { result.now ≡ self.now.key.setting.classes }
    {
        &self.layout.classes
    }

    /// The numbers that the program may read.
    pub fn inputs(&self) -> &Inputs
        ensures { result.now ≡ self.now.key.setting.inputs }
    {
        &self.layout.inputs
    }

    /// The function that thread 0 begins with. It and each function that a thread may be forked with is one that there may be.
    pub fn main(&self) -> u16
        ensures is { result ≡ self.now.key.setting.main }
        ensures near { result < FUNCTIONS }
        ensures forkable { (f : ℕ) → Contains self.now.key.setting.forkable f → f < FUNCTIONS }
    {
        self.layout.main
    }
}
