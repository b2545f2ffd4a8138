//! A reducer that reads a word by an automaton of the left sides.
//!
//! [`Index`] meets the clauses of `kb_rules::Reducer`, word for word those that the plain scan meets, so it gives the
//! same normal forms by the same steps: of the left sides that end at the letter read last, the first in list order is
//! replaced. Where the scan tries each rule at each letter, the index goes from state to state, however many rules
//! there are. Want of memory is the one free answer, and leaves the list of rules as it was. Where it comes while the
//! automaton is made anew, or in the middle of a replacement, it is the answer up to the next change, or until the
//! index is tidied.
//!
//! How it is made:
//!
//! - `automaton`: [`Automaton`], the left sides of a list of rules, found where they end a text. It stands on
//!   `kb_trie::Lookup`, which is kept up to date when a left side comes or goes and knows each by a number of its own.
//!   The numbers of the list's left sides rise along the list, so that the least number has the first place, which is
//!   found by halving. The states of a left side that went stay. [`HasAutomaton`] lends the automaton of a reducer's
//!   rules to other crates.
//! - `index`: the rules and their automaton, which change together. The automaton is made anew, after the old one is
//!   given back, at the next change after a letter came for which it was not made, or when more left sides went than
//!   are left, and 16 more. It is then made for an eighth more letters than there are, since a list may bring one new
//!   letter after another.
//! - `reading`: a word is read letter by letter, each by one step of the automaton and one look at the ends of its
//!   state. A stack keeps the state after each letter of what is read, so that after a replacement reading goes on from
//!   the state before it; the right side is put back to be read. All this stands in the caller's workspace
//!   (`kb_rules::Workspace`). Reading goes from one replacement to the next; each is a step of the trace.
//!
//! The invariant that carries the proof of reading is `StandsFor` of specs/Automata.antt: the state's word is the
//! longest suffix of what is read that is a state's word. Each left side is a state's word (`AreStates` of
//! specs/Lefts.antt), so a left side ends what is read exactly where it ends the state's word.
//!
//! The definitions are in specs/, and the lemmas in proofs/: `Listing` on the left sides with the numbers of a list,
//! `Places` on numbers and places, `Sides` on the left sides of rules, and `Fronts` on reading. What a step does to a
//! word, and that steps come to an end, are lemmas of `kb_rules`.
//!
//! Below are `kb_word`, with words and the definitions of rewriting, `kb_rules`, with rules and the contract of
//! reducers, and `kb_trie`, with the automaton of left sides that come and go.
#![tactic(auto)]

mod automaton;
mod has_automaton;
mod index;
mod reading;

pub use automaton::Automaton;
pub use has_automaton::HasAutomaton;
pub use index::Index;
