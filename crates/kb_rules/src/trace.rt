//! How a normal form is reached: the steps of rewriting, one after another.

use kb_word::Word;

/// A step of rewriting: the left side of a rule, which stands at a place in the word, is replaced by the right side.
#[derive(Clone, Copy, Debug, PartialEq, Eq)]
pub struct Step {
    /// How many letters of the word stand before the left side.
    pub place: usize,
    /// The rule's place in the list, from 0 on.
    pub rule: usize,
}

/// A normal form, and the steps that lead to it.
#[derive(Debug, Drop)]
pub struct Trace {
    pub word: Word,
    pub steps: Vec<Step>,
}
