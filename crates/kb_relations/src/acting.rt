//! What the search for a broken relation finds.

use kb_word::Word;

/// Whether both sides of each relation act alike.
#[derive(Debug, Drop)]
pub enum Acting {
    /// All do.
    Alike,
    /// This one, counted from 1, is the first whose sides don't.
    Broken {
        /// Its number.
        relation: usize,
        /// The least accepted word from which its sides lead to different words.
        word: Word,
        /// Where its left side leads.
        left: Word,
        /// Where its right side leads.
        right: Word,
    },
    /// More states than the limit are counted for this one, counted from 1, and no earlier one is broken.
    TooManyStates {
        /// Its number.
        relation: usize,
    },
}
