//! The word acceptor of a list of rules.
//!
//! The public contract: `acceptor_of_rules` returns the automaton that accepts exactly the words that are
//! irreducible by the rules, where no left side has another one as a factor. It answers `TooManyStates` exactly
//! where more words than the limit are proper prefixes of left sides, the empty word among them.
//! `has_few_states` tells beforehand that they are not, by the number of states of the trie of the left sides;
//! it says no for some that are few.
//!
//! The automaton is the dictionary automaton of Aho and Corasick (Efficient string matching, 1975), without the
//! states at which a left side has been read; Sims, Computation with Finitely Presented Groups, 3.5, calls it
//! the index automaton. Its states are the proper prefixes of left sides. From a prefix a letter leads to the
//! longest suffix, of the prefix with the letter, that is a proper prefix again, and nowhere where a left side
//! ends there. So the state after a word is the longest suffix of it that is a proper prefix, and there is none
//! exactly where the word is reducible. Each proper prefix is irreducible, since no left side has another one
//! as a factor, and so each is a state.
//!
//! Below are `kb_trie`, with the trie of left sides and its steps, and `kb_explore`, which goes through the
//! states that are reached.
#![tactic(auto)]

mod dictionary;
mod prefixes;
mod rules;
mod trie;

pub use kb_explore::Det;
pub use prefixes::has_few_states;
pub use rules::acceptor_of_rules;
