//! What the exploration needs of a branching machine.

ghost use Rattle.std.specs.Prelude.{◌≡◌, true, IfOk};
ghost use Rattle.kb_branching.specs.Branching.{Branching as Model, ReadsAlphabet};

use kb_fsa::Alphabet;
use kb_word::Memory;
use std::alloc::Global;
use std::hash::Hash;

/// A nondeterministic automaton whose states may be of any kind.
pub trait Branching {
    /// What its states are.
    type State: Eq + Hash + Drop;

    ghost machine: { Self → Model Self.State };

    /// What it reads.
    fn alphabet(&self) -> Alphabet
        ensures { result ≡ (machine self.now).alphabet };

    /// The states in which it may start, in any order; one may come twice.
    fn starts(&self, alloc: Global) -> Result<Vec<Self::State>, Memory>
        ensures { IfOk result (λ starts. starts.items ≡ (machine self.now).starts) };

    /// The moves from a state, each a symbol with a state to which it leads, in any order; one may
    /// come twice.
    fn moves(&self, alloc: Global, state: &Self::State) -> Result<Vec<(u32, Self::State)>, Memory>
        ensures { IfOk result (λ moves. moves.items ≡ (machine self.now).moves state.now) };

    /// Whether the state accepts.
    fn accepts(&self, state: &Self::State) -> bool
        ensures { result ≡ (machine self.now).accepts state.now };

    ghost same_state: { (state other : Self.State) → Self.State.eq state other ≡ true
        → state ≡ other };

    ghost reads_alphabet: { (self : Self) → ReadsAlphabet (machine self) };
}
