// The limit, with its number written out.
ghost use Rattle.std.specs.Prelude.{◌≡◌};
ghost use Rattle.gl_names.specs.declared.kind.TheConstants.{NAME_BYTES};

/// The limit of a name is the number that is stated for it.
pub fn limits_are_stated()
    ensures name_bytes { NAME_BYTES ≡ 40 }
{}
