//! What the exploration needs of a machine.

ghost use Rattle.std.specs.Prelude.{◌≡◌, ℕ, true, IfOk};
ghost use Rattle.kb_explore.specs.Machine.{Machine as Model, AreMovesOf};

use kb_word::Memory;
use std::alloc::Global;
use std::hash::Hash;

/// A deterministic automaton whose states may be of any kind.
pub trait Machine {
    /// What its states are.
    type State: Eq + Hash + Drop;

    ghost machine: { Self → Model Self.State };

    ghost symbols: { Self → ℕ };

    /// The initial state; `None` where there is none.
    fn start(&self, alloc: Global) -> Result<Option<Self::State>, Memory>
        ensures { IfOk result (λ start. start ≡ (machine self.now).start) };

    /// The moves from a state, each a symbol with the state to which it leads, by ascending symbols.
    fn moves(&self, alloc: Global, state: &Self::State) -> Result<Vec<(u32, Self::State)>, Memory>
        ensures { IfOk result (λ moves.
            AreMovesOf (machine self.now) (symbols self.now) state.now moves.items) };

    /// Whether the state accepts.
    fn accepts(&self, state: &Self::State) -> bool
        ensures { result ≡ (machine self.now).accepts state.now };

    ghost same_state: { (state other : Self.State) → Self.State.eq state other ≡ true
        → state ≡ other };
}
