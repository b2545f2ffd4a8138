//! The check whether automata are a group's own automatic structure.
//!
//! A word acceptor and a multiplier for each generator may come from anywhere. They are the group's own where exactly
//! the least words are accepted, and each multiplier has exactly the pairs of least words that differ by its generator.
//! Where they aren't there is a certificate: words that a reader can check by hand (`kb_structure`).
//!
//! # The public contract
//!
//! [`check`] answers for automata and the presentation of a group, with rules of the group that may be known to be
//! confluent. `AxiomsSay` of `specs/Answered.antt` says what each answer means. By [`Axioms::Yes`] the automata are
//! the group's own, if both sides of each rule are the same element (the clause `own`). [`Axioms::No`] has the first
//! certificate, N3 being looked for after all other kinds, and only by rules that are known to be confluent.
//! [`Axioms::TooManyStates`] says that a count is above the limit and no certificate comes before it.
//! [`Axioms::Unresolved`] comes only by rules that aren't known to be confluent.
//!
//! It has two parts. [`check_automata`] looks for certificates of all kinds but N3, which need no rules of the group,
//! in the order N1, N2, N4 to N8; within a kind, in the order of the generators or relations, and of words.
//! `AutomataSay` of `specs/Checked.antt` says what each answer means. The order of words is the shortlex order. What is
//! asked of the multipliers, and then of the relations, is shared by the workers of a
//! crew; their number changes nothing of the answer.
//!
//! [`check_truth`] looks at the label words of the multipliers' states by rules of the group (`kb_labels`): they have
//! one normal form each, or there is a first state where they don't. Where they have, and both sides of each rule are
//! the same element, each multiplier relates only words that differ by its generator (the clause `sound`). Where they
//! don't and the rules are confluent, the multiplier relates words that don't differ by its generator, and the least
//! pair of them is certificate N3 (`kb_labels`). By other rules it may yet relate none, so that nothing is looked
//! for, and the state is named.
//!
//! By [`automata_that_pass_are_the_groups_own`] both parts together are enough, and by [`certificates_refute_automata`]
//! no certificate is ever found against the group's own structure.
//!
//! What the checks require of automata and presentations that were read from files is decided by [`fit_together`],
//! [`are_multipliers`] and [`is_group`].
//!
//! In `proofs/`, `Passing` has that words can be followed by what passes the first kinds, `Truths` goes from
//! multiplier to multiplier, and `Different` from different normal forms to different elements. `GroupAutomata` has
//! what the multipliers read, `Presented` what automata are checked for a presentation, and `Own` has the laws.
//!
//! Below are the crates that look for one kind each or a few, `kb_certificates`, `kb_relations` and `kb_labels`,
//! with `kb_structure`. `kb_confluence` has the law of normal forms by confluent rules, and
//! `kb_machine` that a presentation's relations are over its generators.
#![tactic(auto)]

mod answers;
mod automata;
mod checking;
mod fitting;
mod laws;
mod truth;

pub use answers::{Automata, Axioms, Construction, Truth};
pub use automata::check_automata;
pub use checking::check;
pub use fitting::{are_multipliers, fit_together, is_group};
pub use laws::{automata_that_pass_are_the_groups_own, certificates_refute_automata};
pub use truth::check_truth;
