//! The edges of a trie.

/// An edge: the state that it leads from, and the number of its letter. The state that it leads to is its
/// place in the list of edges, counted from 1. There are fewer than 2^32 states.
#[derive(Clone, Copy, Debug, PartialEq, Eq, Hash)]
pub struct Edge {
    pub parent: u32,
    pub letter: u16,
}
