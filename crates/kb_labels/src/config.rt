//! States with labels.

use kb_word::Word;

/// A state of the multiplier with a label: what the words that are read up to there differ by, as a normal form.
#[derive(Debug, PartialEq, Eq, Hash, Drop)]
pub struct Config {
    /// The state.
    pub state: u32,
    /// The label.
    pub label: Word,
}
