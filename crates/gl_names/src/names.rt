// The names that a text gives.
ghost use Rattle.std.specs.Prelude.{◌≡◌, ◌<◌, IfOk, length};

use crate::kind::Kind;
use crate::table::{name_at, table_of};
use std::alloc::{AllocError, Global};
use std::marker::Model;

/// The names that a text gives.
#[derive(Drop)]
pub struct Names<'a> {
    text: &'a [u8],
    threads: Vec<Option<&'a str>>,
    monitors: Vec<Option<&'a str>>,
    volatiles: Vec<Option<&'a str>>,
    variables: Vec<Option<&'a str>>,
}

// Seen as the text.
impl<'a> Model for Names<'a> {
    ghost use Rattle.std.specs.Prelude.{List, ℕ};
    ghost use Rattle.gl_names.specs.Tables.{IsTable};
    ghost use Rattle.gl_names.specs.declared.kind.Kind.TheVariants.{Thread, Monitor, Volatile, Variable};

    ghost Value = { List ℕ };

    ghost view = { λ s. s.text.now };

    ghost invariant = { λ s. IsTable s.text.now Thread s.threads.items × IsTable s.text.now Monitor s.monitors.items
        × IsTable s.text.now Volatile s.volatiles.items × IsTable s.text.now Variable s.variables.items };
}

/// The names that the comment lines of a text give. Of two lines that name one thing the first counts.
pub fn names_of<'a>(alloc: Global, text: &'a [u8]) -> Result<Names<'a>, AllocError>
    requires { length text.now < u32.MAX }
    ensures { IfOk result (λ names. names ≡ text.now) }
{
    Ok(Names {
        text,
        threads: table_of(alloc, text, Kind::Thread)?,
        monitors: table_of(alloc, text, Kind::Monitor)?,
        volatiles: table_of(alloc, text, Kind::Volatile)?,
        variables: table_of(alloc, text, Kind::Variable)?,
    })
}

impl<'a> Names<'a> {
    ghost use Rattle.std.specs.Prelude.{◌≡◌, MatchOption, Some, None};
    ghost use Rattle.gl_names.specs.Names.{name_of};

    /// The name of the thing of this kind and number, if the text gives it one.
    pub fn name(&self, kind: Kind, id: u16) -> Option<&'a str>
        ensures { MatchOption result (name_of self.now kind id ≡ None) (λ s. name_of self.now kind id ≡ Some s.now) }
    {
        match kind {
            Kind::Thread => name_at(&self.threads, id),
            Kind::Monitor => name_at(&self.monitors, id),
            Kind::Volatile => name_at(&self.volatiles, id),
            Kind::Variable => name_at(&self.variables, id),
        }
    }
}
