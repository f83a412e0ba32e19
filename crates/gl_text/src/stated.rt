// The kinds of faults, with their numbers written out.
ghost use Rattle.std.specs.Prelude.{◌≡◌};
ghost use Rattle.gl_text.specs.declared.kinds.TheConstants.{BAD_BYTE, BAD_HEADER, BAD_NAME, BAD_NUMBER, BAD_ORDER, BAD_SET, CANNOT_FORK, JOIN_SELF, MISPLACED, MONITOR_NOT_OWNED, MONITOR_OWNED, NAME_TAKEN, NAME_UNKNOWN, NOT_RUNNING, NO_DONE, PROGRAM_FAULT_BASE, TOO_LONG, TOO_MANY, TOO_MANY_LINES, UNKNOWN_WORD, WORD_COUNT};

/// Each kind is the number that is stated for it.
pub fn kinds_are_stated()
    ensures too_long { TOO_LONG ≡ 1 }
    ensures bad_byte { BAD_BYTE ≡ 2 }
    ensures too_many_lines { TOO_MANY_LINES ≡ 3 }
    ensures unknown_word { UNKNOWN_WORD ≡ 4 }
    ensures word_count { WORD_COUNT ≡ 5 }
    ensures bad_number { BAD_NUMBER ≡ 6 }
    ensures name_taken { NAME_TAKEN ≡ 7 }
    ensures name_unknown { NAME_UNKNOWN ≡ 8 }
    ensures misplaced { MISPLACED ≡ 10 }
    ensures bad_name { BAD_NAME ≡ 11 }
    ensures too_many { TOO_MANY ≡ 12 }
    ensures monitor_owned { MONITOR_OWNED ≡ 20 }
    ensures monitor_not_owned { MONITOR_NOT_OWNED ≡ 21 }
    ensures not_running { NOT_RUNNING ≡ 22 }
    ensures cannot_fork { CANNOT_FORK ≡ 23 }
    ensures join_self { JOIN_SELF ≡ 24 }
    ensures bad_set { BAD_SET ≡ 25 }
    ensures bad_header { BAD_HEADER ≡ 30 }
    ensures bad_order { BAD_ORDER ≡ 31 }
    ensures no_done { NO_DONE ≡ 32 }
    ensures program_fault_base { PROGRAM_FAULT_BASE ≡ 40 }
{}
