//! Reduced complete rewriting systems.
//!
//! Of all complete rewriting systems of a congruence, along one order, one is reduced: a left side has no other one
//! as a factor, and each right side is irreducible. It depends on the congruence and the order alone, so that it is
//! what completion has to print, however it went.
//!
//! The public contract: `reduced_complete` makes it of any confluent rules, as `specs/Reduced.antt`
//! defines it, without a word on those rules. The laws: it is the only one
//! (`reduced_complete_systems_are_unique`), the same for all pairs that generate one congruence
//! (`reduced_by_the_same_congruence`), and complete itself
//! (`reduced_complete_systems_are_complete`). `rules_that_cover_are_confluent` says that confluent
//! rules stay so with more rules of the same congruence, as a completion has them in its lines that
//! are no longer live. The left sides of the reduced system have no other letters than the pairs
//! (`reduced_left_sides_keep_the_letters`): a word with another letter is least as soon as what
//! stands before the letter and what stands behind it are (`proofs/ForeignLetters.antt`).
//!
//! The rules of the reduced system are found by their left sides: those of the given rules that are irreducible
//! without the first letter, and without the last. Their right sides are the normal forms. Sorted, each of them once,
//! they are the system: by confluent rules the irreducible words are the least ones (`proofs/Least.antt`), and a
//! word that isn't least while its two largest proper factors are has a left side as a factor, which then is the
//! whole word (`proofs/Found.antt`).
//!
//! The laws speak of no given rules, and ask for no decision procedure. That what the system leaves alone is least says
//! only what can't be, no congruent word below, so that it is enough that the class can't be without a least
//! word (`proofs/Complete.antt`).
//!
//! Below are `kb_word`, `kb_rules`, `kb_overlap` and `kb_confluence`.
#![tactic(auto)]

mod laws;
mod letters;
mod minimal;
mod reducing;

pub use laws::{
    reduced_by_the_same_congruence, reduced_complete_systems_are_complete,
    reduced_complete_systems_are_unique, rules_that_cover_are_confluent,
};
pub use letters::reduced_left_sides_keep_the_letters;
pub use reducing::reduced_complete;
