//! What is known of a word that may be a left side, or become one.

/// What is known of a word that may be a left side, or become one.
#[derive(Clone, Copy, Debug, PartialEq, Eq, Hash)]
pub enum LeftPlace {
    /// It is the empty word.
    Start,
    /// The acceptor has a state after it, and one after it without its first letter.
    Inside {
        /// The state after the word.
        own: u32,
        /// The state after the word without its first letter.
        behind: u32,
    },
    /// It is a left side.
    End,
}
