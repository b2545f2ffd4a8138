//! Two states of one automaton.

/// Where an automaton of words stands after the two words of a pair, each as far as it is read.
#[derive(Clone, Copy, Debug, PartialEq, Eq, Hash)]
pub(crate) struct WordStates {
    /// The state after the first word.
    pub first: u32,
    /// The state after the second.
    pub second: u32,
}
