// The limits of program texts, with their numbers written out.
ghost use Rattle.std.specs.Prelude.{◌≡◌, negsuc, pos};
ghost use Rattle.gl_asm.specs.declared.limits.TheConstants.{LEAST_VALUE, LONGEST, MOST_COUNT, MOST_INDEX, MOST_VALUE, NAME_TAIL};
ghost use Rattle.gl_asm.specs.declared.names.TheConstants.{COLON, UNDERSCORE};

/// Each limit of a program text is the number that is stated for it.
pub fn limits_are_stated()
    ensures longest { LONGEST ≡ 1048576 }
    ensures name_tail { NAME_TAIL ≡ 31 }
    ensures most_index { MOST_INDEX ≡ 65535 }
    ensures most_count { MOST_COUNT ≡ 65535 }
    ensures least_value { LEAST_VALUE ≡ negsuc 9223372036854775807 }
    ensures most_value { MOST_VALUE ≡ pos 9223372036854775807 }
{}

/// Each byte that has a meaning in a name is the one that is stated for it.
pub fn bytes_are_stated()
    ensures underscore { UNDERSCORE ≡ 95 }
    ensures colon { COLON ≡ 58 }
{}
