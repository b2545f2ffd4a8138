//! The states of the machine of second words.

use kb_word::Word;

/// How far a second word is read beside a first one.
#[derive(Debug, PartialEq, Eq, Hash, Drop)]
pub struct Reading {
    /// How many letters of the first word are read.
    pub place: usize,
    /// The state of the multiplier.
    pub state: u32,
    /// The normal form of what is read of the second word, behind the word that it began with.
    pub word: Word,
}
