ghost use Rattle.std.specs.Prelude.{ℕ};
ghost use Rattle.gl_bytecode.specs.Faults.{IsFaultless};
ghost use Rattle.gl_gen.specs.Bank.{bank_program};

/// The validator's rules find no fault in the bank, however many transfers it makes.
pub fn the_bank_has_no_fault()
    ensures { (transfers : ℕ) → IsFaultless (bank_program transfers) }
{}
