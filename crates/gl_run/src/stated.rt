// The limits and statuses of the command line, with their numbers written out.
ghost use Rattle.std.specs.Prelude.{◌≡◌, None, Some};
ghost use Rattle.gl_words.specs.Options.{limits_of, nothing_given};
ghost use Rattle.gl_words.specs.declared.options.NumberOption.TheVariants.{Cells, Segments, Size, Steps, Workers};
ghost use Rattle.gl_words.specs.declared.options.TheConstants.{DEFAULT_WORKERS, MOST_DIGITS};
ghost use Rattle.gl_run.specs.Options.{options_of};
ghost use Rattle.gl_run.specs.Words.{most_of};
ghost use Rattle.gl_run.specs.declared.load.TheConstants.{LOAD_STEPS};
ghost use Rattle.gl_run.specs.declared.status.TheConstants.{ALL_WELL, NOT_HALTED, NOT_LAWFUL, NO_COMMAND, NO_MEMORY, RACES, READ_FAILED, REFUSED, WRITE_FAILED};
ghost use Rattle.gl_run.specs.declared.options.LoadOptions.{LoadOptions};
ghost use Rattle.gl_run.specs.declared.options.RunOptions.{RunOptions};
ghost use Rattle.gl_run.specs.declared.words.Command.TheVariants as commands;

/// Each limit, and each number that stands where none is given, is the one that is stated for it.
pub fn limits_are_stated()
    ensures workers { limits_of Workers ≡ record { least = 1; most = 16 } }
    ensures steps { limits_of Steps ≡ record { least = 1; most = 1000000 } }
    ensures segments { limits_of Segments ≡ record { least = 2; most = 64 } }
    ensures cells { limits_of Cells ≡ record { least = 4; most = 64 } }
    ensures size { limits_of Size ≡ record { least = 1; most = 10000 } }
    ensures standards { options_of nothing_given ≡ record { workers = 4; steps = 200000; ring = record { segments = 64; cells = 64 } } }
    ensures default_workers { DEFAULT_WORKERS ≡ 4 }
    ensures load_steps { LOAD_STEPS ≡ 1000000 }
    ensures most_digits { MOST_DIGITS ≡ 7 }
    ensures check_bytes { most_of (Some commands.Check) ≡ Some 1048576 }
    ensures list_bytes { most_of (Some commands.List) ≡ Some 1048576 }
    ensures run_bytes { (options : RunOptions) → most_of (Some (commands.Run options)) ≡ Some 1048576 }
    ensures load_bytes { (load : LoadOptions) → most_of (Some (commands.Load load)) ≡ None }
    ensures audit_bytes { most_of (Some commands.Audit) ≡ Some 67108864 }
{}

/// Each status is the number that is stated for it.
pub fn statuses_are_stated()
    ensures all_well { ALL_WELL ≡ 0 }
    ensures no_command { NO_COMMAND ≡ 1 }
    ensures read_failed { READ_FAILED ≡ 2 }
    ensures write_failed { WRITE_FAILED ≡ 3 }
    ensures refused { REFUSED ≡ 4 }
    ensures no_memory { NO_MEMORY ≡ 5 }
    ensures races { RACES ≡ 6 }
    ensures not_halted { NOT_HALTED ≡ 7 }
    ensures not_lawful { NOT_LAWFUL ≡ 8 }
{}
