//! Automatic groups: the automatic structure of a group, and whether given automata are it.
//!
//! # The public contract
//!
//! - [`gpaxioms`] is given a presentation of a group, a word acceptor and a multiplier for each generator, and limits.
//!   `CheckedSays` of `specs/Deciding.antt` says what each answer means. [`Checked::Yes`] is a proof that they are the
//!   group's own: exactly the least words are accepted, and each multiplier has exactly the pairs of least words that
//!   differ by its generator. [`Checked::No`] has the first certificate. [`Checked::TooManyStates`] and
//!   [`Checked::Halted`] come only at a limit that was reached, each with what shows that.
//! - [`autgroup`] is given a presentation of a group and limits, and looks for its automatic structure.
//!   `AutgroupSays` of `specs/Autgroup.antt` says what each answer means. [`Autgroup::Own`] has the canonical
//!   automata, and is a proof that they are the group's own. The other answers come only at a limit: of the
//!   completion, of the word differences that are kept, or of the states of a construction. Each has what shows that,
//!   and the differences, each where it was first seen (`specs/Kept.antt`).
//!
//! # How the check goes
//!
//! The automata are checked by themselves first, which needs no rules of the group (`kb_axioms::check_automata`).
//! What is left is whether the multipliers relate only words that differ by their generators. That is asked of the
//! rules of a completion (`kb_axioms::check_truth`), whose sides are congruent whatever else is known of them, so
//! that a yes counts at any time: after each round the live rules are asked (`rounds`), and once more where the
//! completion halts. The reduced complete system, where the completion comes to it, is confluent and answers with yes
//! or no (`asking`).
//!
//! # How the search goes
//!
//! A completion grows, and after each growth its live rules are tried (`searching`). The log is twice as long after a
//! growth as before (`growth`), so that all trials together take few times as long as the last one. A trial makes
//! rounds (`trying`): automata are made of the word differences of the rules, and checked (`kb_round`). Where the
//! check fails, the equality of its certificate has differences that the automata lack. They are kept too
//! (`gathering`), and another round is made, unless a word of the equality is reducible, or its differences are kept
//! already: then only better rules help. Nor do few rules get many rounds: as many as there were lines, in
//! proportion. By the reduced complete system each failed round keeps more (a law of `kb_round`), so that it is tried
//! until the automata are the group's own or a limit is reached. Where the completion halts a last round is made by
//! its live rules (`outcomes`).
//!
//! What is said of live rules rests on the course of the completion alone (`live`): their sides are the same elements,
//! and where nothing is pending they generate the congruence.
//!
//! Below are `kb_axioms`, which checks automata, `kb_round`, which makes and checks them, `kb_kept` with the listings
//! of differences, `kb_complete`, which completes presentations, and `kb_system`, with what shows that a completion
//! halted.
#![tactic(auto)]

mod answers;
mod asking;
mod deciding;
mod gathering;
mod growth;
mod live;
mod outcomes;
mod rounds;
mod searching;
mod trying;

pub use answers::{Autgroup, Checked};
pub use deciding::gpaxioms;
pub use searching::autgroup;
