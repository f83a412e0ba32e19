// A set of variables, with a bit for each.
ghost use Rattle.std.specs.Prelude.{◌≡◌, ◌≢◌, ◌↔◌, ◌⊎◌, ℕ, ◌*◌, ◌<◌, ◌≤◌, MatchOption};
ghost use Rattle.gl_model.specs.declared.limits.TheConstants.{VARIABLES};
ghost use Rattle.gl_cache.specs.Bits.{HasBit};

use gl_model::VARIABLES;

const BIT_WORDS: usize = VARIABLES as usize / 64;

#[derive(Clone, Copy)]
pub(crate) struct VarBits {
    pub(crate) words: [u64; BIT_WORDS],
}

fn set_bit(words: &mut [u64; BIT_WORDS], k: usize)
    requires { k < 64 * BIT_WORDS }
    ensures { (j : ℕ) → HasBit words.new j ↔ ((j ≡ k) ⊎ HasBit words.old j) }
{
    words[k / 64] |= 1 << (k % 64);
}

fn clear_bit(words: &mut [u64; BIT_WORDS], k: usize)
    requires { k < 64 * BIT_WORDS }
    ensures { (j : ℕ) → HasBit words.new j ↔ ((j ≢ k) × HasBit words.old j) }
{
    words[k / 64] &= !(1 << (k % 64));
}

impl VarBits {
    pub(crate) fn none() -> VarBits
        ensures { (x : ℕ) → HasBit result.words x → ⊥ }
    {
        VarBits {
            words: [0; BIT_WORDS],
        }
    }

    pub(crate) fn add(&mut self, x: u16)
        requires { x < VARIABLES }
        ensures { (y : ℕ) → HasBit self.new.words y ↔ ((y ≡ x) ⊎ HasBit self.old.words y) }
    {
        set_bit(&mut self.words, x as usize);
    }

    pub(crate) fn remove(&mut self, x: u16)
        requires { x < VARIABLES }
        ensures { (y : ℕ) → HasBit self.new.words y ↔ ((y ≢ x) × HasBit self.old.words y) }
    {
        clear_bit(&mut self.words, x as usize);
    }

    /// The least variable that is in it.
    pub(crate) fn least(&self) -> Option<u16>
        ensures { MatchOption result ((y : ℕ) → y < VARIABLES → HasBit self.now.words y → ⊥) (λ x. (x < VARIABLES) × HasBit self.now.words x × ((y : ℕ) → HasBit self.now.words y → x ≤ y)) }
    {
        for k in 0..BIT_WORDS {
            let word = self.words[k];
            if word != 0 {
                return Some((64 * k) as u16 + word.trailing_zeros() as u16);
            }
        }
        None
    }
}
