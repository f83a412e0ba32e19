// The limits of trace texts, with their numbers written out.
ghost use Rattle.std.specs.Prelude.{◌≡◌};
ghost use Rattle.gl_trace.specs.declared.limits.TheConstants.{TRACE_BYTES, TRACE_LINES};

/// Each limit is the number that is stated for it.
pub fn limits_are_stated()
    ensures bytes { TRACE_BYTES ≡ 1048576 }
    ensures lines { TRACE_LINES ≡ 16384 }
{}
