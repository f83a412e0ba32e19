ghost use Rattle.std.specs.Prelude.{◌≡◌, ℕ, ◌<◌, ◌≤◌, slice_get};
ghost use Rattle.gl_model.specs.declared.limits.TheConstants.{CLASSES, MONITORS, VARIABLES};
ghost use Rattle.gl_bytecode.specs.declared.fault.ProgFault.{ProgFault as Fault};
ghost use Rattle.gl_bytecode.specs.Examples.{changed_list, five, five_list, spent_list, touching, two_prints};
ghost use Rattle.gl_bytecode.specs.Faults.{IsFaultless, IsFirstFault};
ghost use Rattle.gl_bytecode.specs.Forced.{ExchangesAreForced};
ghost use Rattle.gl_bytecode.specs.Programs.{Bytecode, Draft, draft_of};
ghost use Rattle.gl_bytecode.specs.References.{object_at, object_of, reference_to};
ghost use Rattle.gl_bytecode.specs.Runs.{Runs};
ghost use Rattle.gl_bytecode.specs.Validity.{IsValid};

/// What `validate` is proved to answer is one answer: parts of a faultless program have no first fault, and no parts
/// have two.
pub fn one_meaning()
    ensures apart { (P : Bytecode) (x : Fault) → IsFaultless P → IsFirstFault (draft_of P) x → ⊥ }
    ensures faults { (D : Draft) (x y : Fault) → IsFirstFault D x → IsFirstFault D y → x ≡ y }
{}

/// A reference that is laid out from the numbers of an object refers to that object.
pub fn references_are_read_back()
    ensures { (P : Bytecode) (o c d v : ℕ) → o < MONITORS → c < CLASSES → d ≤ VARIABLES → object_at P (reference_to o c d v) ≡ object_of o d v (slice_get P.classes c) }
{}

/// The entries of a list force its exchanges: two lists of exchanges with the same entries, each of which ends with an entry and
/// outside attempts, are the same. So what a thread's machine was answered can be read off the thread's list: a word that an attempt
/// was answered with is a look of the entry that ends the attempt.
pub fn exchanges_are_forced()
    ensures { ExchangesAreForced }
{}

/// The definitions can be met: there is a valid program, and there are lists that programs run. One halts, one has its steps spent, and one
/// drops its transaction as changed and makes it again.
pub fn definitions_can_be_met()
    ensures valid { IsValid five }
    ensures halts { Runs five 200000 0 five_list }
    ensures spent { Runs two_prints 3 0 spent_list }
    ensures again { Runs touching 200000 0 changed_list }
{}
