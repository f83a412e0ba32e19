ghost use Rattle.std.specs.Ordering.{int_eq};
ghost use Rattle.std.specs.Prelude.{◌≡◌, ◌==◌, ◌&&◌, ◌<◌, ◌≤◌, true, nat_lt, is_some, ◌||◌, map, []};
ghost use Rattle.gl_model.specs.declared.limits.TheConstants.{TX_VARIABLES, VARIABLES};
ghost use Rattle.gl_bytecode.specs.Runs.{known_word, same_words, with_word, word_of};
ghost use Rattle.gl_follow.specs.Words.{look_word, pair_word, size_of};

use gl_model::{Looks, Pair, Pairs, TX_VARIABLES, VarSet};
use std::marker::Model;

// What the running attempt looked at and wrote so far, and the variables of both.
#[derive(Drop)]
pub(crate) struct Words {
    looks: Pairs,
    writes: Pairs,
    all: VarSet,
}

impl Model for Words {
    ghost use Rattle.gl_follow.specs.Words.{Touched, pair_word, pair_var};
    ghost use Rattle.std.specs.Ordering.{int_eq};
    ghost use Rattle.std.specs.Prelude.{◌≡◌, ◌==◌, ◌&&◌, map};
    ghost use Rattle.gl_model.specs.Rising.{with_all};

    ghost Value = { Touched };

    ghost view = { λ w. record { looks = map pair_word w.looks; writes = map pair_word w.writes } };

    ghost invariant = { λ w. w.all ≡ with_all (map pair_var w.writes) (map pair_var w.looks) };
}

impl Words {
    // No word.
    pub(crate) fn empty() -> Words
        ensures { result ≡ record { looks = []; writes = [] } }
    {
        Words {
            looks: Pairs::empty(),
            writes: Pairs::empty(),
            all: VarSet::empty(),
        }
    }

    // The attempt's own word of the variable: what it wrote, else what it looked at.
    pub(crate) fn known(&self, var: u16) -> Option<i64>
        ensures { result ≡ known_word (word_of self.now.writes var) (word_of self.now.looks var) }
    {
        match self.writes.of(var) {
            Some(write) => Some(write.value),
            None => match self.looks.of(var) {
                Some(look) => Some(look.value),
                None => None,
            },
        }
    }

    // Is a word of the variable known?
    pub(crate) fn knows(&self, var: u16) -> bool
        ensures { result ≡ (is_some (word_of self.now.writes var) || is_some (word_of self.now.looks var)) }
    {
        match self.writes.of(var) {
            Some(_) => true,
            None => self.looks.of(var).is_some(),
        }
    }

    // Is there room for another variable?
    pub(crate) fn has_room(&self) -> bool
        ensures { result ≡ nat_lt (size_of self.now) TX_VARIABLES }
    {
        self.all.len() < TX_VARIABLES as usize
    }

    // Tells a caller's proof that there are at most `TX_VARIABLES` variables.
    pub(crate) fn keeps(&self)
        ensures { size_of self.now ≤ TX_VARIABLES }
    {
        self.all.keeps();
    }

    // Puts in a word that was looked at.
    pub(crate) fn look(&mut self, var: u16, value: i64)
        requires there { var < VARIABLES }
        requires room { size_of self.old < TX_VARIABLES }
        ensures { self.new ≡ record self.old { looks = with_word var value self.old.looks } }
    {
        let Ok(()) = self.all.insert(var) else {
            unreachable!()
        };
        let Ok(()) = self.looks.put(Pair { var, value }) else {
            unreachable!()
        };
    }

    // Puts in a word that was written, of a variable that is known or has room.
    pub(crate) fn write(&mut self, var: u16, value: i64)
        requires there { var < VARIABLES }
        requires room { (is_some (word_of self.old.writes var) || is_some (word_of self.old.looks var)) || nat_lt (size_of self.old) TX_VARIABLES ≡ true }
        ensures { self.new ≡ record self.old { writes = with_word var value self.old.writes } }
    {
        self.looks.keeps();
        self.writes.keeps();
        let Ok(()) = self.all.insert(var) else {
            unreachable!()
        };
        self.all.keeps();
        let Ok(()) = self.writes.put(Pair { var, value }) else {
            unreachable!()
        };
    }

    // Are these the looks?
    pub(crate) fn looked(&self, looks: &Looks) -> bool
        ensures { result ≡ same_words (map (λ l. (l.var, l.value)) looks.now) self.now.looks }
    {
        same_looks(looks, &self.looks)
    }

    // Are these the writes?
    pub(crate) fn wrote(&self, writes: &Pairs) -> bool
        ensures { result ≡ same_words (map (λ w. (w.var, w.value)) writes.now) self.now.writes }
    {
        same_pairs(writes, &self.writes)
    }
}

// Are the looks of these variables, with these values?
fn same_looks(looks: &Looks, words: &Pairs) -> bool
    ensures { result ≡ same_words (map look_word looks.now) (map pair_word words.now) }
{
    looks.keeps();
    words.keeps();
    for i in 0..TX_VARIABLES as usize {
        match (looks.at(i), words.at(i)) {
            (Some(look), Some(word)) => {
                if !is_word(look.var, look.value, word) {
                    return false;
                }
            }
            (None, None) => return true,
            (Some(_), None) | (None, Some(_)) => return false,
        }
    }
    true
}

// Are the writes of these variables, with these values?
fn same_pairs(writes: &Pairs, words: &Pairs) -> bool
    ensures { result ≡ same_words (map pair_word writes.now) (map pair_word words.now) }
{
    writes.keeps();
    words.keeps();
    for i in 0..TX_VARIABLES as usize {
        match (writes.at(i), words.at(i)) {
            (Some(write), Some(word)) => {
                if !is_word(write.var, write.value, word) {
                    return false;
                }
            }
            (None, None) => return true,
            (Some(_), None) | (None, Some(_)) => return false,
        }
    }
    true
}

// Is this the word of the variable?
fn is_word(var: u16, value: i64, word: Pair) -> bool
    ensures { result ≡ (var == word.var && int_eq value word.value) }
{
    var == word.var && value == word.value
}
