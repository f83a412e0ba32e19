// Which instruction a machine stands at.
use crate::machine::Machine;
use gl_bytecode::Stage;

/// Where an instruction stands: the number of its function, and its place there.
#[derive(Clone, Copy, Debug, PartialEq, Eq)]
pub struct Site {
    pub function: u16,
    pub place: u16,
}

impl Machine {
    ghost use Rattle.std.specs.Prelude.{◌≡◌};
    ghost use Rattle.gl_vm.specs.Standing.{site_of};

    /// The instruction that has asked and waits for the answer, or that has ended the attempt that runs: the one at the place of the
    /// present frame. There is none where the machine goes on by itself, as at its beginning and its end.
    pub fn site(&self) -> Option<Site>
        ensures { result ≡ site_of self.now }
    {
        match self.stage {
            Stage::Waits(_) | Stage::Drops(_) => Some(Site {
                function: self.frame.function(),
                place: self.frame.place(),
            }),
            Stage::New
            | Stage::Begins
            | Stage::Runs
            | Stage::Leaves { .. }
            | Stage::Ends(_)
            | Stage::Over(_) => None,
        }
    }
}
