//! Lists side by side in one array.
//!
//! # The public contract
//!
//! A [`Ragged`] stands for a list of lists: [`Ragged::new`] has none, [`Ragged::push`] appends one, and
//! [`Ragged::len`] and [`Ragged::get`] read them. Where memory runs out, `push` leaves the lists as they were.
//!
//! # How it is made
//!
//! The items of all lists stand in one array, one list behind another, and a second array has where each of them
//! ends. So a list takes one number beside its items, and a thousand short lists two pieces of memory. The two arrays
//! stand behind one pointer, so that a type that may hold a `Ragged` in place of something small stays small itself.
//!
//! `specs/Cuts.antt` has the lists that the two arrays stand for, and `proofs/RaggedLemmas.antt` what becomes of them
//! where one more is appended.
//!
//! Below is `kb_word`, for want of memory.
#![tactic(auto)]

mod ragged;

pub use ragged::Ragged;
