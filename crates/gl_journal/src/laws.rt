// Laws of the definitions.
ghost use Rattle.std.specs.Prelude.{◌≡◌, ℕ, List};
ghost use Rattle.gl_model.specs.Entries.{Entry};
ghost use Rattle.gl_journal.specs.Meaning.{IsRecordText, IsFirstFault};
ghost use Rattle.gl_journal.specs.Rows.{record_text};
ghost use Rattle.gl_journal.specs.Written.{CanBeSaid};

/// A text has one meaning: a number of steps and a record, or its first fault.
pub fn one_meaning()
    ensures apart { (text : List ℕ) (steps : ℕ) (R : List (ℕ × List Entry)) (first line kind : ℕ) → IsRecordText text steps R → IsFirstFault text first line kind → ⊥ }
    ensures faults { (text : List ℕ) (first a b j k : ℕ) → IsFirstFault text first a j → IsFirstFault text first b k → (a ≡ b) × (j ≡ k) }
    ensures texts { (text : List ℕ) (m n : ℕ) (Q R : List (ℕ × List Entry)) → IsRecordText text m Q → IsRecordText text n R → (m ≡ n) × (Q ≡ R) }
{}

/// What is written is read back: the text of a record means that record, and no other.
pub fn written_is_read()
    ensures text { (steps : ℕ) (R : List (ℕ × List Entry)) → CanBeSaid steps R → IsRecordText (record_text steps R) steps R }
    ensures only { (steps n : ℕ) (R Q : List (ℕ × List Entry)) → CanBeSaid steps R → IsRecordText (record_text steps R) n Q → (n ≡ steps) × (Q ≡ R) }
{}
