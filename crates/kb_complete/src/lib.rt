//! Completion: from a presentation to its reduced complete rewriting system, or to a halt at a limit.
//!
//! # The public contract
//!
//! - [`complete`] answers `Confluent` with the reduced complete system of the presentation, by
//!   which each word's normal form is the least word that is congruent to it, or `Halted` with a
//!   book that is halted at a limit, with a pair that waits. Either carries the book, whose lines are
//!   the log; with `Confluent` the rules of all its lines are confluent, and generate the congruence of
//!   the relations (`IsCompleted` of `specs/Completing.antt`).
//! - [`grow`] is one round of it: it answers `More` as soon as there is a line more, and nothing is pending. It is
//!   given the `kb_share::Finder` of the book, or a new one, and leaves it to the next round (`KnowsGrown`).
//!
//! That `More` can't come for ever rests on the limit of lines, and says nothing of whether the
//! presentation has a finite complete system.
//!
//! # How it goes
//!
//! Knuth, Bendix, Simple Word Problems in Universal Algebras; Holt, Eick, O'Brien, Handbook of Computational Group
//! Theory, 12.2. The book is settled: lines are made until nothing is pending (`kb_share`). Then a pass of the
//! workers enters overlaps that are apart (`kb_threads`), and the book is settled again. A pass that enters nothing
//! is the proof of confluence, so there is no check beside the passes. A pass that entered something leads to a line
//! or to a halt: what it entered is apart by the live rules, and nothing else was pending (`growing`, `ending`).
//!
//! Why the answer is right: where nothing is pending the live rules generate the congruence of the
//! relations, whatever events led there (`kb_machine::courses_are_sound`), and where they are
//! confluent besides, `kb_reduced` makes the reduced complete system of them.
//!
//! Below are `kb_book`, `kb_share`, `kb_threads` and `kb_reduced`.
#![tactic(auto)]

mod answers;
mod completing;
mod ending;
mod growing;
mod publishing;

pub use answers::{Grown, Outcome};
pub use completing::{complete, complete_watched};
pub use growing::grow;
