// The limits, with their numbers written out.
ghost use Rattle.std.specs.Prelude.{◌≡◌};
ghost use Rattle.gl_picture.specs.declared.picture.TheConstants.{HALF, LEAD};

/// The limits are the numbers that are stated for them.
pub fn limits_are_stated()
    ensures lead { LEAD ≡ 8 }
    ensures half { HALF ≡ 24 }
{}
