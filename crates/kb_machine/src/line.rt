//! Lines of a log.

ghost use Rattle.std.specs.Prelude.{◌<◌, ◌^◌};

use crate::origin::Origin;
use kb_word::Word;

/// A step of a derivation: the left side of a line, which stands at a place in the word, is replaced by the right side.
/// A line has some five steps, so they are to take little memory: a word with a place that 32 bits don't number would
/// itself take 8 gigabytes.
#[derive(Clone, Copy, Debug, PartialEq, Eq)]
pub struct LogStep {
    /// How many letters of the word stand before the left side.
    pub place: u32,
    /// The line's number, from 1 on.
    pub line: u32,
    pub ghost fits: { place < 2 ^ 32 },
}

/// A line of a log: a rule, and how it was made.
#[derive(Debug, Drop)]
pub struct Line {
    /// The pair of words of which it was made.
    pub origin: Origin,
    /// The greater side.
    pub left: Word,
    /// The lesser side.
    pub right: Word,
    /// The steps from the first word of the pair; of a line that was shortened those from its right side.
    pub first_steps: Vec<LogStep>,
    /// The steps from the second word of the pair; of a line that was shortened none.
    pub second_steps: Vec<LogStep>,
}
