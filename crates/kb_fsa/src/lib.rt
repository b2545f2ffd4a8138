//! Finite state automata, and the definitions of languages that the crates above share.
//!
//! An automaton reads words over the generators, or pairs of words as padded texts. Its table keeps for each
//! state a sparse row: its moves (transitions), each a symbol with its target, symbols ascending. The rows of all
//! states stand side by side ([`Rows`]), so that a state takes five bytes beside its moves. The crate's public
//! contract: `Fsa::step` and `Fsa::moves` are the table, and `accepts` and `accepts_pair` are the language. Calls that
//! read an automaton take no memory, but for `copy`.
//!
//! `PairSymbols` numbers the symbols of pairs, and `Ended` follows which word of a pair has ended.
//!
//! A table is also a graph. `reached` marks exactly the things to which a path of edges leads from a seed;
//! `reversed` has all moves of a table, each backwards; and `live` marks exactly the states from which some text
//! is accepted. `link` finds the edges from each thing, for programs that go over them. Each takes every edge once,
//! so that the time grows with the edges; no clause says so.
//!
//! # Where the definitions are
//!
//! In `specs/`: tables and right languages in `Table`, the symbols of pairs in `PairSymbols`, pairs as texts in
//! `Padding`, which word has ended in `EndedWords`, languages in `Language`, canonical automata in `Canonical`,
//! and the counted states of each construction in `Counted`; edges and what they lead to in `Graphs`, and the moves
//! of a table as edges in `Moves`.
//!
//! # Where the proofs are
//!
//! In `proofs/`, for the crates above too: `Lookups` of rows and of the states to which texts lead, `PairSymbolLaws`
//! of the numbers of pairs, `Paddings` and `Unpadding` of the texts of pairs and of their words, `PaddedRuns` of
//! which word has ended along a text; `LinkLemmas`, `Reaching` and `MoveLemmas` of edges and of what they lead to.
//!
//! Below are `kb_word`, and `kb_ragged`, whose lists side by side the rows are.
#![tactic(auto)]

mod alphabet;
mod ended;
mod fsa;
mod links;
mod moves;
mod pair_symbols;
mod reach;
mod rows;
mod symbols;
mod table;
mod texts;

pub use alphabet::Alphabet;
pub use ended::Ended;
pub use fsa::Fsa;
pub use links::{Links, link};
pub use moves::{Backward, live, reversed};
pub use pair_symbols::PairSymbols;
pub use reach::reached;
pub use rows::{Rows, split_at_symbol, target_of};
pub use symbols::Symbols;
pub use table::Table;
pub use texts::{pair_of, word_of};
