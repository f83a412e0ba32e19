// The limits of record texts, with their numbers written out.
ghost use Rattle.std.specs.Prelude.{◌≡◌, pos, negsuc};
ghost use Rattle.gl_journal.specs.declared.limits.TheConstants.{LEAST_STEPS, LEAST_VALUE, MOST_STAMP, MOST_STEPS, MOST_VALUE};

/// Each limit is the number that is stated for it.
pub fn limits_are_stated()
    ensures least_steps { LEAST_STEPS ≡ 1 }
    ensures most_steps { MOST_STEPS ≡ 1000000 }
    ensures most_stamp { MOST_STAMP ≡ 9223372036854775807 }
    ensures least_value { LEAST_VALUE ≡ negsuc 9223372036854775807 }
    ensures most_value { MOST_VALUE ≡ pos 9223372036854775807 }
{}
