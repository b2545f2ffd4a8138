//! Automata that give labels to the texts that they accept.
//!
//! Automata that have one set of moves, and differ in which states accept, can be kept as one: each state that
//! accepts has a *label*, a number, and by each label it is the automaton of the texts with that label (Moore,
//! "Gedanken-experiments on sequential machines", 1956, for states with outputs). The moves are kept once, and can be
//! made fewer for all labels together (`kb_fsamin::reduced_by_labels`).
//!
//! The public contract: [`Labelled`] is an automaton with a label for each state; and [`Labelled::accepting`] is an
//! automaton of exactly the texts that have a label.
//!
//! In `specs/`, `Labels` has which label a text has, and which states are alike. In `proofs/`, `OneLabel` has the
//! texts of one label, and `Likeness` what alike states have in common.
//!
//! Below is `kb_fsa`.
#![tactic(auto)]

mod labelled;

pub use labelled::Labelled;
