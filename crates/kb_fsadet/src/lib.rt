//! From nondeterministic automata to deterministic ones, and the projection of pairs.
//!
//! The public contract: `determinise` returns a deterministic automaton of the same language by the subset
//! construction, with one state for each set of states to which texts lead, and `exists` one of the words beside
//! which an automaton of pairs accepts some word, of whatever length. `avoiding` returns one of the texts that lead
//! somewhere and of which no prefix is accepted. Each answers `TooManyStates` exactly where there are more sets of
//! states, to which texts lead, than the limit; `avoiding` counts those of its own texts. `exists` makes the automaton
//! deterministic that `automaton_of_first_words` returns.
//!
//! The subset construction is a machine that `kb_explore` explores. A set of states is kept as the ascending list
//! of their numbers, and its moves (transitions) are those of its states in groups, one for each symbol. Where the
//! moves by a symbol are many beside the states, each is a mark in a row of its symbol, and the marks of a row are a
//! set in order (`marks`). Otherwise the moves are sorted by symbols, and each group by targets (`subset`).
//!
//! Below are `kb_fsa` and `kb_explore`.
//!
//! # Where the proofs are
//!
//! - `Sets` and `Members`: sets of numbers as ascending lists, and what is a member.
//! - `Targets` and `Groups`: where moves by a symbol lead, and sorted moves in groups by symbols.
//! - `Marking`: moves as marks, and the groups of what is marked.
//! - `ExactSets`: machines that go to the set of what a text has, and what is then true of their exploration.
//! - `Determinised`: the subset construction goes to exactly the sets of states to which texts lead.
//! - `Avoided`: without the sets that accept, to those of texts of which no prefix is accepted.
//! - `FirstWordLemmas`, `Endings`, `FirstWordTexts`, `Projections`: the automaton of first words, and its language.
//! - `PlainTexts`: automata over plain alphabets read words.
#![tactic(auto)]

mod avoidance;
mod determined;
mod first_words;
mod marks;
mod nfa;
mod projection;
mod state_set;
mod subset;

pub use avoidance::avoiding;
pub use determined::determinise;
pub use first_words::automaton_of_first_words;
pub use kb_explore::Det;
pub use nfa::{Branches, Nfa, moves_at};
pub use projection::exists;
pub use state_set::StateSet;
