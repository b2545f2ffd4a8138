//! The canonical automaton of a language.
//!
//! The public contract: `canonical` returns the canonical automaton of the same language over the same alphabet,
//! and by `one_language_has_one_canonical_automaton` there is one only, so that two canonical automata of one
//! language are equal. A canonical automaton has exactly the states and moves (transitions) that accepted texts need.
//!
//! Automata that have one set of moves are made small together: of an automaton with labels (`kb_labelled`)
//! [`reduced_by_labels`] returns one that gives each text the same label and has no more states. For that states are
//! one from which each text leads to the same label; states of one right language are so where all labels are the
//! same. Nothing is promised of how few states are left.
//!
//! Below are `kb_fsa` with the definitions and the moves backwards, `kb_labelled` with labels, and `kb_explore` with
//! the numbering.
//!
//! # Where the proofs are
//!
//! - `Uniqueness`: one language has one canonical automaton.
//! - `FirstClasses`, `Classings`, `RoundSteps`, `ClassRows`, `Signatures`, `RisingSums`: the
//!   classes by labels, when they are stable, and the rounds that refine them until they are.
//! - `Ranges`, `Counting`, `Marking`, `Leading`, `Dividing`, `SplitSteps`: the refinable partition, by a counting sort,
//!   and how it is split.
//! - `Numberings`, `Splittings`, `Entering`: the splitters.
//! - `Represented`, `RepresentedMoves`, `Reduced`, `EmptyCanonical`, `Unlabelled`: the quotient by the classes is
//!   canonical where labels tell nothing apart.
//! - `KeptLabels`: the quotient gives each text the same label.
#![tactic(auto)]

mod canonical_form;
mod classes;
mod incoming;
mod labels;
mod laws;
mod partition;
mod quotient;
mod reduction;
mod rounds;
mod splitting;
mod stability;

pub use canonical_form::canonical;
pub use laws::one_language_has_one_canonical_automaton;
pub use reduction::reduced_by_labels;
