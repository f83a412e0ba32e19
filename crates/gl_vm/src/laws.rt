ghost use Rattle.std.specs.Prelude.{ℕ, ◌+◌, ◌*◌, ◌≤◌, List, length};
ghost use Rattle.gl_model.specs.Entries.{Entry};
ghost use Rattle.gl_bytecode.specs.Programs.{Bytecode};
ghost use Rattle.gl_bytecode.specs.Runs.{Along, Progress, without_trims};
ghost use Rattle.gl_vm.specs.Asking.{due};

/// A law: the entries that a machine can cause are bounded by the instructions that it has counted, 4 for each and 5 more,
/// with those that are due yet among them.
pub fn entries_are_bounded()
    ensures { (P : Bytecode) (steps t : ℕ) (list : List Entry) (p : Progress) → Along P steps t list p → length (without_trims list) + due p.config ≤ 4 * p.config.counted + 5 }
{}
