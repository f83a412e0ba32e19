// The limits, the codes of exceptions, the kinds of faults and the layout of references, with their numbers written out.
ghost use Rattle.std.specs.Prelude.{◌≡◌};
ghost use Rattle.gl_bytecode.specs.declared.fault.TheConstants.{BAD_CLASS, BAD_FUNCTION, BAD_JUMP, BAD_LOCAL, FALLS_OFF_END, NO_MAIN, STACK_DEPTH, TOO_LONG};
ghost use Rattle.gl_bytecode.specs.declared.limits.TheConstants.{BAD_THREAD, CALLERS, CATCHES, CODE, DEPTH, DIVIDE, HEAP_FULL, INPUT_END, LEAST_THROWN, LOCALS, MOST_THROWN, NOT_OWNER, NO_FIELD, NULL, OPERANDS, RACE, THREADS_FULL, TX_STATE, TX_TOO_LARGE};
ghost use Rattle.gl_bytecode.specs.declared.object.TheConstants.{CLASS_UNIT, VARIABLE_UNIT, VOLATILE_UNIT};

/// Each limit of a program is the number that is stated for it. There is one frame more than there are callers.
pub fn limits_are_stated()
    ensures code { CODE ≡ 4096 }
    ensures operands { OPERANDS ≡ 256 }
    ensures locals { LOCALS ≡ 32 }
    ensures catches { CATCHES ≡ 16 }
    ensures callers { CALLERS ≡ 63 }
    ensures least_thrown { LEAST_THROWN ≡ 100 }
    ensures most_thrown { MOST_THROWN ≡ 199 }
{}

/// Each exception has the code that is stated for it.
pub fn codes_are_stated()
    ensures race { RACE ≡ 1 }
    ensures null { NULL ≡ 2 }
    ensures no_field { NO_FIELD ≡ 3 }
    ensures divide { DIVIDE ≡ 4 }
    ensures not_owner { NOT_OWNER ≡ 5 }
    ensures heap_full { HEAP_FULL ≡ 6 }
    ensures threads_full { THREADS_FULL ≡ 7 }
    ensures input_end { INPUT_END ≡ 8 }
    ensures tx_too_large { TX_TOO_LARGE ≡ 9 }
    ensures tx_state { TX_STATE ≡ 10 }
    ensures bad_thread { BAD_THREAD ≡ 11 }
    ensures depth { DEPTH ≡ 12 }
{}

/// Each kind of a program's fault is the number that is stated for it.
pub fn kinds_are_stated()
    ensures bad_jump { BAD_JUMP ≡ 1 }
    ensures bad_function { BAD_FUNCTION ≡ 2 }
    ensures bad_class { BAD_CLASS ≡ 3 }
    ensures bad_local { BAD_LOCAL ≡ 4 }
    ensures stack_depth { STACK_DEPTH ≡ 5 }
    ensures falls_off_end { FALLS_OFF_END ≡ 6 }
    ensures too_long { TOO_LONG ≡ 7 }
    ensures no_main { NO_MAIN ≡ 8 }
{}

/// What an object's numbers count for in a reference is what is stated.
pub fn units_are_stated()
    ensures class_unit { CLASS_UNIT ≡ 256 }
    ensures variable_unit { VARIABLE_UNIT ≡ 65536 }
    ensures volatile_unit { VOLATILE_UNIT ≡ 4294967296 }
{}
