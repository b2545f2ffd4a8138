//! Rules, and the normal forms that they compute.
//!
//! A rule replaces its left side by its right side, which is less by the order that its list holds. The crate has one
//! public contract for all programs that reduce words, the trait [`Reducer`]: [`Reducer::nf`] gives *the* normal
//! form, to which first rewrites lead. That it exists and is the only one are laws, [`normal_forms_exist`] and
//! [`normal_forms_are_unique`], so that two reducers of the same rules always agree. [`Reducer::reduce`] puts it in
//! the word's place, and works in a [`Workspace`] that its caller keeps for many words. [`Reducer::trace`] gives the
//! steps too, each by its place in the word and its rule's place in the list; that each replaces a left side by a
//! right side is the law [`first_steps_are_steps`]. By [`Reducer::push`] and [`Reducer::remove`] the list grows and
//! shrinks, and by [`Reducer::replace`] it does both at once.
//!
//! [`Scan`] is the plain reducer: it reads the word from left to right and tries all rules after
//! each letter. What is read is irreducible, so that the first left side that ends it is the first
//! rewrite's. The reading goes from one first rewrite to the next, and ends since each gives a
//! lesser word.
//!
//! The definitions are in `specs` (`Steps` has the steps, `OrderedRules` what a list and a reducer
//! stand for); the lemmas are in `proofs`: `Unique` and `Exists` on normal forms, `Endings` on the
//! left side that ends a word, `Tracing` on steps.
//!
//! Below is `kb_word`, with words, their orders and the definitions of rewriting.
#![tactic(auto)]

mod laws;
mod reducer;
mod rule;
mod rules;
mod scan;
mod trace;
mod unread;
mod workspace;

pub use laws::{
    a_normal_form_is_a_reduct, first_steps_are_steps, irreducible_words_are_normal,
    normal_forms_are_unique, normal_forms_exist, reducts_are_congruent_and_not_greater,
};
pub use reducer::Reducer;
pub use rule::Rule;
pub use rules::Rules;
pub use scan::Scan;
pub use trace::{Step, Trace};
pub use unread::Unread;
pub use workspace::Workspace;
