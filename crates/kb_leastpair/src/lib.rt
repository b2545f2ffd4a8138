//! The least pair of words that an automaton of pairs accepts.
//!
//! Pairs are compared by their first words, and then by their second ones, both in the shortlex order. That isn't
//! the order of their texts: padding is the last letter, so that a text with a longer first word may come first.
//!
//! The public contract: [`least_first`] returns the least word beside which some second word is accepted,
//! [`least_second`] the least second word beside one first word, [`least_end`] the least one beside the rest of a first
//! word, from a state on, and [`least_pair`] both words; each `None` exactly where there is none. There is no limit:
//! the automaton is not made deterministic in its first words.
//!
//! First words are those of a nondeterministic automaton, of which `kb_fsaleast` finds the least accepted text. The
//! second words beside one first word are those of a machine, which `kb_explore` explores up to the first that it
//! accepts: its states are how much of the first word is read, and the automaton's state. So it may also start at a
//! place of the first word, in any state.
//!
//! In `specs/`, `LeastPair` has what is returned, and `SecondWords` the machine. In `proofs/`, `SecondMoves` has
//! the machine's moves, `SecondRuns` what it accepts, and `Pairs` pairs by their two words.
//!
//! Below are `kb_fsadet` and `kb_fsaleast`.
#![tactic(auto)]

mod first;
mod pair;
mod reading;
mod second;

pub use first::least_first;
pub use pair::least_pair;
pub use second::{least_end, least_second};
