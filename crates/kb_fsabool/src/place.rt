//! The states of the complement.

use kb_fsa::Ended;

/// A state of an automaton, or 0 for none, with which word has ended on the way.
#[derive(Clone, Copy, Debug, PartialEq, Eq, Hash)]
pub struct Place {
    /// The state.
    pub state: u32,
    /// Which word has ended.
    pub ended: Ended,
}
