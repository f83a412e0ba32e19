// Laws of the definitions.
ghost use Rattle.std.specs.Prelude.{◌≡◌, ◌<◌, ◌⊎◌, ℕ, ℤ, List, Some, length};
ghost use Rattle.gl_bytecode.specs.declared.instr.Instr.{Instr};
ghost use Rattle.gl_bytecode.specs.Programs.{Bytecode, instr_at};
ghost use Rattle.gl_asm.specs.Texts.{IsText};
ghost use Rattle.gl_bytecode.specs.Runs.{Progress, Runs};
ghost use Rattle.gl_bytecode.specs.Validity.{IsValid};
ghost use Rattle.gl_follow.specs.Following.{EachBeginsRight};
ghost use Rattle.gl_model.specs.Entries.{Entry};
ghost use Rattle.gl_sites.specs.Sites.{IsAnswered, IsMadeAt, IsMadeByNone, IsNote};
ghost use Rattle.gl_sites.specs.PlainLines.{PlainHasLine};
ghost use Rattle.gl_sites.specs.SourceLines.{IsLineOf};

/// Each instruction of a program has one line in the program's text, and no line is that of two: an instruction has a line, two lines
/// of one instruction are the same line, two instructions of one line are the same instruction, and the line of an instruction adds
/// what the program has in that place.
pub fn each_instruction_has_one_line()
    ensures some { (text : List ℕ) (P : Bytecode) (inputs : List ℤ) (f i : ℕ) (instr : Instr) → IsText text P inputs → instr_at P f i ≡ Some instr → (n : ℕ) × IsLineOf text f i n }
    ensures at_most_one { (text : List ℕ) (f i m n : ℕ) → IsLineOf text f i m → IsLineOf text f i n → m ≡ n }
    ensures of_one { (text : List ℕ) (f g i j n : ℕ) → IsLineOf text f i n → IsLineOf text g j n → (f ≡ g) × (i ≡ j) }
    ensures adds { (text : List ℕ) (P : Bytecode) (inputs : List ℤ) (f i n : ℕ) → IsText text P inputs → (line : IsLineOf text f i n) → instr_at P f i ≡ Some line.instr }
{}

/// Each entry of a list that its thread's machine makes has one maker: an instruction of the program, or none, as at the thread's
/// beginning and its end; a note of a trim and the last entry, which says how the thread ended, no machine makes.
///
/// What it asks of the program is so of each `Program`, and what it asks of the beginnings is a rule that `audit` holds a record to.
pub fn each_entry_has_one_maker()
    ensures some { (P : Bytecode) (steps t : ℕ) (list : List Entry) (n : ℕ) → Runs P steps t list → n < length list → ((f : ℕ) × (i : ℕ) × IsMadeAt P steps t list n f i) ⊎ (IsMadeByNone P steps t list n ⊎ IsNote list n) }
    ensures at_most_one { (P : Bytecode) (steps t : ℕ) (list : List Entry) (n : ℕ) → IsValid P → EachBeginsRight P list → (f g i j : ℕ) → IsMadeAt P steps t list n f i → IsMadeAt P steps t list n g j → (f ≡ g) × (i ≡ j) }
    ensures notes { (P : Bytecode) (steps t : ℕ) (list : List Entry) (n : ℕ) (p : Progress) → IsNote list n → IsAnswered P steps t list n p → ⊥ }
    ensures apart { (P : Bytecode) (steps t : ℕ) (list : List Entry) (n : ℕ) → IsValid P → EachBeginsRight P list → (f i : ℕ) → IsMadeAt P steps t list n f i → IsMadeByNone P steps t list n → ⊥ }
{}

/// Each plain access in a list that its thread's machine makes was made by an instruction, which has a line in the program's text.
pub fn a_plain_access_has_a_line()
    ensures { PlainHasLine }
{}
