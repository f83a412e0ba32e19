// Laws of the flat history and of the words, each on the contract of a function with nothing to do.
ghost use Rattle.gl_flat.specs.Words.{FirstWordIsOne, FlatHistoryIsOne, LegalWhereWordsHold};

/// The flat history of a well-formed record is there, and there is one.
pub fn the_flat_history_is_one()
    ensures { FlatHistoryIsOne }
{}

/// A record whose events are a run of the machine is legal exactly where its words hold.
pub fn records_are_legal_where_words_hold()
    ensures { LegalWhereWordsHold }
{}

/// There is at most one first place where a word is wrong, and none where the words hold.
pub fn the_first_wrong_word_is_one()
    ensures { FirstWordIsOne }
{}
