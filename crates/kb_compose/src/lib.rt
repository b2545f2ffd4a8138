//! Composites of automata of pairs.
//!
//! The public contract: `compose` returns an automaton of exactly the pairs (u, v) of words between which there is a
//! word w, of any length, such that the first automaton accepts (u, w) and the second one (w, v). It answers
//! `TooManyStates` exactly where there are more different sets of pairs of states, to which texts lead, than the limit.
//!
//! `along` composes the multipliers of a word's letters one after another, from the identity on an acceptor on: it
//! returns an automaton of exactly the pairs (u, v) such that u is accepted and following the word from u leads to v.
//! Each composite is made canonical before the next, and the last one too; `TooManyStates` comes exactly where one of
//! them counts more than the limit.
//!
//! # How it works
//!
//! The composite is a subset construction: a text of a pair (u, v) leads to the set of the pairs (p, q) of states
//! such that, for some middle word w no longer than the text, (u, w) leads to p and (w, v) to q. Where the letters of
//! two of the words are both padding, an accepting state stays where it is. Beside each set stands which of the outer
//! words has ended, since a state that stays may have moves that no padded text could take; sets are counted without
//! it, so that there are at most three times as many places as sets.
//!
//! From a pair the moves of p are taken one after another, and for each the block of the moves of q whose first
//! letter is the middle one, so that no middle letter is tried in vain. A set is the ascending list of the numbers of
//! its pairs.
//!
//! A set accepts where the middle word may go on, behind both outer words, to acceptance: all pairs of all sets are the
//! seeds of one graph, whose live states are marked backwards.
//!
//! Below are `kb_fsa`, `kb_explore`, `kb_fsamin` and `kb_fsadet`.
//!
//! # Where the proofs are
//!
//! - `Numbers`: pairs of states as numbers.
//! - `Texts`: padded texts with a symbol more, and the states to which they lead.
//! - `Stepping`: where pairs of words with a letter more lead, with staying.
//! - `Joins` and `Blocks`: the moves of pairs, what they say of words, and the block of a middle letter.
//! - `Groupings`: the moves in groups, with which word has ended.
//! - `PlacesAfter`: the machine goes to exactly the pairs to which a text leads.
//! - `Endings`: the rests of the middle word.
//! - `CountedSets` and `SetSteps`: how many sets there are, and their counting one after another.
//! - `Languages` and `Whole`: what is accepted, and all that the contract of `compose` says.
//! - `Identities` and `Chains`: the identity on an acceptor, and the composites along a word.
#![tactic(auto)]

mod chain;
mod composite;
mod counting;
mod grouping;
mod identity;
mod joining;
mod machine;
mod pair_set;
mod place;
mod tail;
mod tails;

pub use chain::along;
pub use composite::compose;
pub use kb_explore::Det;
