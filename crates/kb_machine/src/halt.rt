//! Why a completion halts.

use crate::line::LogStep;
use kb_word::Word;

/// A limit that was reached, with the normal forms `u` and `v` of the pair that waits, `u` the
/// greater one. The steps lead to them from the first word of the pair and from the second.
#[derive(Debug, Drop)]
pub enum Halt {
    /// The log has as many lines as it may have.
    Rules {
        u: Word,
        v: Word,
        first_steps: Vec<LogStep>,
        second_steps: Vec<LogStep>,
    },
    /// The greater word has more letters than the left side of a line may have.
    Length {
        u: Word,
        v: Word,
        first_steps: Vec<LogStep>,
        second_steps: Vec<LogStep>,
    },
}
