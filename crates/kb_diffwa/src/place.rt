//! The states of the machine of pairs.

/// Where the reading of a pair of words stands.
#[derive(Clone, Copy, Debug, PartialEq, Eq, Hash)]
pub struct Place {
    /// The acceptor's state after the first word, or 0 once that word has ended and is padded.
    pub first: u32,
    /// The same of the second word.
    pub second: u32,
    /// The number of the difference between what is read of the two.
    pub difference: u32,
}
