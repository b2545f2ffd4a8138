//! Exploration of branching machines: from one with states of any kind to a numbered
//! nondeterministic automaton.
//!
//! A branching machine may start in several states, and may have several moves (transitions) from a
//! state by one symbol. The public contract is that of `explore_branches`: its automaton has
//! exactly the states that texts lead to, each once, with the same texts, and so the machine's
//! language; and it answers `TooManyStates` exactly where there are more of them than the limit.
//! States are numbered in the order in which they are first seen: the starts, then those where the
//! moves of state 1 lead, and so on.
//!
//! It serves constructions that guess, such as composites of pairs and projections to first words.
//!
//! Below are `kb_explore`, which explores deterministic machines, and `kb_fsadet`, whose automata these are.
//!
//! # Where the proofs are
//!
//! - `Inserting`: what inserting into the set of states tells of a state's number.
//! - `Steps`: a state, a number and a row more.
//! - `Counting`: distinct items of a list are no more than its items.
//! - `Whole`: once each state has its row, the same texts lead to states and to their numbers.
#![tactic(auto)]

mod exploration;
mod machine;
mod numbering;

pub use exploration::{BranchExploration, explore_branches};
pub use kb_explore::Det;
pub use machine::Branching;
