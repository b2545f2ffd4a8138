//! What ends the search for a broken relation.

use kb_word::Word;

/// A relation at which the search ends, by its index.
#[derive(Debug, Drop)]
pub(crate) enum Stop {
    /// Its sides lead to different words from this word, and from no lesser one.
    LedApart { index: usize, word: Word },
    /// More states than the limit are counted for it.
    TooManyStates { index: usize },
}
