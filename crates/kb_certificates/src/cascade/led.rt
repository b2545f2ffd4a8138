//! The states of a cascade product.

/// A state of the leader, with one of the follower.
#[derive(Debug, PartialEq, Eq, Hash, Drop)]
pub(crate) struct Led<S> {
    /// The leader's state.
    pub leader: u32,
    /// The follower's.
    pub follower: S,
}
