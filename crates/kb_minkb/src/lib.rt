//! The reduced complete system of an automatic structure, as two automata.
//!
//! Of the rules of the reduced complete system of a group, a left side isn't the least word of its class, but is
//! without its first letter, and without its last; the right side is the least word. There may be infinitely many.
//! Where the group has an automatic structure, the left sides are the language of an automaton all the same, and the
//! rules are that of an automaton of pairs: `a*b^k*A -> b^k` is a rule for each k where the words `b^k` are least and
//! a commutes with b.
//!
//! # The public contract
//!
//! - [`minred`] returns the canonical automaton of the left sides: of the words that the acceptor doesn't accept, but
//!   accepts without their first letter, and without their last (`IsLeftSide` of `specs/LeftSides.antt`).
//! - [`minkb`] returns the canonical automaton of the rules: of the pairs of a left side with the word to which the
//!   multipliers lead from it (`IsRule` of `specs/Rules.antt`). Without its last letter the left side is an accepted
//!   word, from which the multiplier of that letter leads to the right side, which isn't longer.
//!
//! Both are said of an acceptor that accepts each word that leads to one of its states. So it is with the canonical
//! acceptor of the group's own structure ([`own_acceptors_accept_each_state`]), whose accepted words are closed under
//! prefixes.
//!
//! What the automata are good for is laws. In the group's own structure the left sides are exactly those of the
//! reduced complete system ([`own_left_sides_are_reduced`]), and in the shortlex order the rules are exactly its
//! rules ([`own_rules_are_reduced`]), by its definition (`IsReducedRule` of `kb_reduced`), also where there are
//! infinitely many.
//!
//! # What is counted
//!
//! `TooManyStates` comes exactly where more than the limit are counted. For left sides these are the empty word; each
//! pair of states, neither of them none, to which a word leads, itself and without its first letter; and the end,
//! where there is a left side (`CountedMinred`). For rules the texts of pairs are counted whose second word is no
//! longer: by the place of the first word among these, with the list of all multipliers' states after the text,
//! unless there is none; and by the end, where there is a rule (`CountedMinkb`).
//!
//! # How it works
//!
//! Both are machines for `kb_explore`, and what it explores is made canonical by `kb_fsamin`. A word leads to its place
//! ([`LeftPlace`]): to the state after it, and the one after it without its first letter. Where a letter leads from the
//! first to none, and from the second to some state, the word with the letter is a left side.
//!
//! The text of a pair (u, v) leads to the place of u, with the states of all multipliers ([`PairPlace`]), since the
//! letter that makes u a left side is known only when it comes. Then the pair's text is one symbol longer than the
//! one that the letter's multiplier reads: that symbol has the letter beside the padding, or beside the last letter
//! of the right side, which the multiplier reads beside the padding.
//!
//! Of many generators there are many pairs of letters, and a state of a multiplier has moves by few of them. So the
//! symbols by which some multiplier goes on are marked first, and only by these the states are looked for. As the
//! symbols ascend, each multiplier's move is guessed to be a little behind the one before, and the guess is tested.
//!
//! # Where the proofs are
//!
//! - `Items`: machines that lead a text to the one thing that belongs to it, and how many states these have.
//! - `Moves`: the moves of a state, symbol by symbol.
//! - `Places`: the places of words, letter by letter; `LeftLanguages`: which words have that of a left side.
//! - `LastSymbols` and `Going`: texts of pairs with a symbol more at the end.
//! - `States` and `Multiplied`: the multipliers' states after a text, and what they accept.
//! - `Gathered`: these states, gathered one by one; `MarkLemmas`: marks of the symbols by which they have moves.
//! - `Between`: where in an ascending row a symbol's move is.
//! - `PairPlaces`, `RuleFollowing` and `RuleSteps`: the places of pairs, symbol by symbol; `RuleLanguages`: which
//!   pairs are rules.
//! - `OwnRules`: the group's own structure.
//!
//! Below are `kb_explore`, `kb_fsamin`, and for the definitions `kb_structure` and `kb_reduced`.
#![tactic(auto)]

mod guesses;
mod laws;
mod left_sides;
mod marks;
mod pair_place;
mod place;
mod rules;
mod state_list;

pub use kb_explore::Det;
pub use laws::{
    own_acceptors_accept_each_state, own_left_sides_are_reduced, own_rules_are_reduced,
};
pub use left_sides::minred;
pub use pair_place::PairPlace;
pub use place::LeftPlace;
pub use rules::minkb;
