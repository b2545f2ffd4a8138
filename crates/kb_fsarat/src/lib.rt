//! Rational operations on plain automata, and the enumeration of their words.
//!
//! The public contract: `concat`, `star` and `reverse` return an automaton of exactly the stated language, and answer
//! `TooManyStates` exactly where their construction counts more states than the limit. `Enumerate` returns the accepted
//! words of the lengths that are asked for, each once, in the shortlex order.
//!
//! The operations make nondeterministic automata with the moves (transitions) of those they are given, which
//! `kb_fsadet` determinises. `star` counts the empty set of states too where a word leads to it, which is where some
//! state of the answer has no move by some letter.
//!
//! Below are `kb_fsa`, `kb_explore` and `kb_fsadet`.
//!
//! # Where the proofs are
//!
//! - `Nondeterminism` and `Determinising`: nondeterministic automata over plain alphabets, and what becomes of their
//!   sets of states.
//! - `Restarting` and `Chaining`: concatenation.
//! - `Repeating`, `CountedStars` and `ShortRows`: iteration, and what it counts.
//! - `Turning` and `Reversing`: reversal.
//! - `LayerLemmas`, `SuccessorLemmas`, `EnumerationLemmas`: the enumeration.
//! - `TableMoves` and `MoveLists`: the moves of a table, one by one, and what lists have.
#![tactic(auto)]

mod answers;
mod concatenation;
mod enumeration;
mod iteration;
mod layers;
mod restarts;
mod reversal;
mod successor;

pub use concatenation::concat;
pub use enumeration::Enumerate;
pub use iteration::star;
pub use kb_explore::Det;
pub use reversal::reverse;
