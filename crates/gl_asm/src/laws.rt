// Laws of the definitions.
ghost use Rattle.std.specs.Prelude.{◌≡◌, ℕ, ℤ, List, []};
ghost use Rattle.gl_bytecode.specs.Faults.{AllThrowInRange, IsFaultless};
ghost use Rattle.gl_bytecode.specs.Programs.{Bytecode, draft_of};
ghost use Rattle.gl_asm.specs.Listable.{OperandsAreTyped};
ghost use Rattle.gl_asm.specs.Listing.{listing};
ghost use Rattle.gl_asm.specs.Texts.{IsFirstFault, IsText};

/// A text has one meaning: a program and its inputs, or its first fault.
pub fn one_meaning()
    ensures apart { (text : List ℕ) (program : Bytecode) (inputs : List ℤ) (line kind : ℕ) → IsText text program inputs → IsFirstFault text line kind → ⊥ }
    ensures faults { (text : List ℕ) (a b j k : ℕ) → IsFirstFault text a j → IsFirstFault text b k → (a ≡ b) × (j ≡ k) }
    ensures texts { (text : List ℕ) (P Q : Bytecode) (xs ys : List ℤ) → IsText text P xs → IsText text Q ys → (draft_of P ≡ draft_of Q) × (xs ≡ ys) }
{
    gl_bytecode::one_meaning();
}

/// The canonical listing of a program is a text of the same program and of no inputs, and of nothing else.
///
/// What it asks of the program is so of each `Program`.
pub fn listing_is_text()
    ensures text { (P : Bytecode) → IsFaultless P → AllThrowInRange P.functions → OperandsAreTyped P → IsText (listing P) P [] }
    ensures only { (P : Bytecode) → IsFaultless P → AllThrowInRange P.functions → OperandsAreTyped P → (Q : Bytecode) (inputs : List ℤ) → IsText (listing P) Q inputs → (Q ≡ P) × (inputs ≡ []) }
{}
