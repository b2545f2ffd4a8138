//! A word difference where it was seen.

use kb_word::Word;

/// A word difference with an equality and a place at which it is.
#[derive(Debug, Drop)]
pub struct Seen {
    /// The difference.
    pub word: Word,
    /// The equality's index, from 0 on.
    pub equality: usize,
    /// The place, from 1 on.
    pub place: usize,
}
