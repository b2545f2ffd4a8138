//! How many texts an automaton accepts: words, or pairs of words.
//!
//! # The public contract
//!
//! [`count_accepted`] says how many texts an automaton accepts: so many, where they are finitely many, and else
//! `Infinite`. [`counts_by_length`] says for each length up to the one that is asked for how many accepted texts have
//! it. That a number is that of some texts means that a list which has exactly those texts, each once, is so long
//! (`AreSoMany` of `specs/Counts.antt`); infinitely many are texts of which one is longer than each bound. By the law
//! [`there_is_one_count`] only one answer is right.
//!
//! An automaton of pairs reads the text of a pair, the shorter word padded. By the law
//! [`texts_of_pairs_stand_for_pairs`] a text is that of one pair alone, and as long as its longer word; so the number
//! of texts of a length is that of the pairs whose longer word has that length.
//!
//! A [`Natural`] is a natural number of any size, which is added and printed in decimal digits.
//!
//! # How it counts
//!
//! By length: no step leads to a text of length 0, and a text one longer goes along one move of its state, so the
//! numbers of one length give those of the next. In all: the number of a state follows from those of the states to
//! which its moves lead. Where they are all known, it is settled; the states are gone over, from the last one to the
//! first, until nothing changes. A state that isn't settled then has a move to another such state, and so on for ever.
//!
//! Below are `kb_fsa` and `kb_fsamin`, whose canonical automata it counts over.
//!
//! # Where the definitions and the proofs are
//!
//! In `specs/`, `Counts` has what is counted, `Decimal` the digits of a number, `Limbs` how one is kept, and `Totals`
//! how far a count has come. In `proofs/`: `Sums` and `Digits` of numbers; `Listings` of lists that have exactly some
//! texts, each once; `Moves` of texts that go along the moves of a state, `Endless` of those that go on for ever, and
//! `Settling` of states that are settled one after another.
#![tactic(auto)]

mod counting;
mod laws;
mod lengths;
mod natural;
mod totals;

pub use counting::{Count, count_accepted};
pub use laws::{texts_of_pairs_stand_for_pairs, there_is_one_count};
pub use lengths::counts_by_length;
pub use natural::Natural;
