//! Where word differences were first seen.
//!
//! Two words that are the same element of a group have word differences (`kb_diff`). The differences that are kept of
//! a list of such pairs, each with the first pair and the first place that has it, are evidence that anyone can
//! check: each stands where it is said to be, and nothing before it is missing.
//!
//! # The public contract
//!
//! - A [`Equality`] is a pair of words u and v where u, or u followed by a generator x, is the same element as v.
//! - [`rule_equalities`] makes the equalities of rules.
//! - [`list_differences`] is given the differences that were kept of equalities in order. It returns the same words,
//!   each with the first equality and place at which it is ([`Seen`]), and the first difference for which there was
//!   no room, if there is one. `AreListed` of `specs/Listed.antt` says what such a listing is, without how it was
//!   made: exactly the differences of the equalities, in the order of equalities and places, up to the one for which
//!   there was no room.
//!
//! The listing is made with a set of the words that are known; `specs/Finding.antt` says what is found up to a place
//! and what is left to find.
//!
//! Below is `kb_diff`, which keeps differences.
#![tactic(auto)]

mod equality;
mod listing;
mod seen;

pub use equality::{Equality, rule_equalities};
pub use listing::{Listing, list_differences};
pub use seen::Seen;
