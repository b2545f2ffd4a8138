//! The states of the machine of second words.

/// How far a second word is read beside a first one.
#[derive(Clone, Copy, Debug, PartialEq, Eq, Hash)]
pub struct Reading {
    /// How many letters of the first word are read.
    pub place: usize,
    /// The state of the automaton of pairs.
    pub state: u32,
}
