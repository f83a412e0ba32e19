// That the text of an audit has one meaning, and how long it may be.
ghost use Rattle.std.specs.Prelude.{◌≡◌, ℕ, ℤ, List};
ghost use Rattle.gl_audited.specs.declared.limits.TheConstants.{AUDIT_BYTES};
ghost use Rattle.gl_audited.specs.Cut.{IsCutAt};
ghost use Rattle.gl_audited.specs.Meaning.{IsAuditText, IsFirstFault};
ghost use Rattle.gl_bytecode.specs.Programs.{Bytecode, draft_of};
ghost use Rattle.gl_model.specs.Entries.{Entry};

/// A text is cut at one place, and has one meaning: a program with its inputs and a record with its steps, or its first fault.
pub fn one_meaning()
    ensures cut { (text : List ℕ) (m n : ℕ) → IsCutAt text m → IsCutAt text n → m ≡ n }
    ensures apart { (text : List ℕ) (P : Bytecode) (inputs : List ℤ) (steps : ℕ) (R : List (ℕ × List Entry)) (line kind : ℕ) → IsAuditText text P inputs steps R → IsFirstFault text line kind → ⊥ }
    ensures faults { (text : List ℕ) (a b j k : ℕ) → IsFirstFault text a j → IsFirstFault text b k → (a ≡ b) × (j ≡ k) }
    ensures texts { (text : List ℕ) (P Q : Bytecode) (xs ys : List ℤ) (m n : ℕ) (R S : List (ℕ × List Entry)) → IsAuditText text P xs m R → IsAuditText text Q ys n S → (draft_of P ≡ draft_of Q) × (xs ≡ ys) × (m ≡ n) × (R ≡ S) }
{
    gl_asm::one_meaning();
    gl_journal::one_meaning();
}

/// The limit of a text is the number that is stated for it.
pub fn limits_are_stated()
    ensures bytes { AUDIT_BYTES ≡ 67_108_864 }
{}
