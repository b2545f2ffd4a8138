//! The states of the machine of tails.

/// Where a rest of the middle word leads behind both outer words.
#[derive(Clone, Copy, Debug, PartialEq, Eq, Hash)]
pub enum Tail {
    /// To all pairs, each by its place.
    Begin,
    /// To the pair of states of this number.
    At(u64),
}
