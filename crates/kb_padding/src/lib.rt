//! Tables of automata of pairs: without the moves that no padded text takes.
//!
//! An automaton of pairs of words reads a pair as a padded text: a symbol for each pair of letters, of which one may be
//! padding behind the end of the shorter word. A table that comes from outside may have moves besides that no such text
//! takes: by the symbol of two paddings, or by a symbol that has a letter on a track where some text that leads to the
//! state has padding already.
//!
//! # The public contract
//!
//! [`without_misplaced`] returns the table without these moves, and nothing else changed (`IsWithoutMisplaced` of
//! `specs/Misplaced.antt`): only padded texts lead from its initial state to a state. The table is refused where one of
//! these moves lies on an accepted text, and then it accepts a text that is not padded (`IsPaddingFault`). So, want of
//! memory apart, a table is refused exactly where it accepts such a text.
//!
//! # How it is made
//!
//! The moves are listed backwards, and of them the edges forwards, each once. Along the edges the states are marked
//! that a text leads to, that a text with padding on the first track leads to, and so for the second. These marks say
//! of each move whether it is misplaced. The moves that are listed are let go before rows are made anew.
//!
//! # Where the definitions and proofs are
//!
//! In `specs/`, `Misplaced` has the moves that no padded text takes, and `Cleaning` the marks. In `proofs/`,
//! `PaddedTexts` has padded texts symbol by symbol, `EdgeLemmas` the edges forwards and backwards, `PaddingReach` what
//! the marks say of texts, and `Cleanings` the table without those moves.
//!
//! Below is `kb_fsa`: tables, symbols of pairs, and what moves lead to.
#![tactic(auto)]

mod error;
mod misplaced;

pub use error::PaddingFault;
pub use misplaced::without_misplaced;
