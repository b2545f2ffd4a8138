//! What a cascade product needs of the follower.

ghost use Rattle.std.specs.Prelude.{◌≡◌, true};
ghost use Rattle.kb_certificates.specs.Cascade.{Follower as Model};

use std::hash::Hash;

/// A machine that moves with an automaton, its leader.
pub(crate) trait Follower {
    /// What its states are.
    type State: Eq + Hash + Drop;

    ghost follower: { Self → Model Self.State };

    /// Where it starts.
    fn start(&self) -> Self::State
        ensures { result ≡ (follower self.now).start };

    /// Where it moves from a state, as the leader reads the symbol in its own state.
    fn next(&self, leader: u32, state: &Self::State, symbol: u32) -> Self::State
        ensures { result ≡ (follower self.now).next leader state.now symbol };

    /// Whether both accept in these states.
    fn accepts(&self, leader: u32, state: &Self::State) -> bool
        ensures { result ≡ (follower self.now).accepts leader state.now };

    ghost same_state: { (state other : Self.State) → Self.State.eq state other ≡ true
        → state ≡ other };
}
