//! Files of a subgroup: words of a presentation that generate it, as text.
//!
//! Such a file is a text of a record with the field `subGenerators`, a list of words over the presentation's
//! generators; other fields are read and ignored. The words and the presentation's equations are at most 65,535
//! together, since each word becomes an equation of the presentation that marks the subgroup's cosets.
//!
//! # The public contract
//!
//! [`read`] answers the words that the bytes say over a presentation (`GeneratorsOf` of `specs/Holds.antt`), whose
//! letters are generators of it. A refusal names the first fault that the bytes have (`HasSubFault` of
//! `specs/Faults.antt`), in the order of checks (`specs/Checks.antt`): names of fields that stand twice; the field is
//! absent; it is no list of words; the words are too many; and then word by word what each has. The laws complete
//! that: by [`a_subgroup_file_has_no_fault`] no bytes are both read and refused, by [`a_subgroup_file_has_one_fault`]
//! they are refused for one fault at most, and by [`a_text_says_one_list_of_generators`] they are read in one way at
//! most.
//!
//! # How it is made
//!
//! - `words` tells lists of words from other values, and reads the words of a list.
//! - `reader` joins the checks.
//!
//! # Where the proofs are
//!
//! - `proofs/CheckLemmas.antt`: the order of the checks, and the first fault by steps.
//! - `proofs/WordLemmas.antt`: lists of words, and the words that they mean.
//! - `proofs/FaultLemmas.antt`: what is refused is the first fault.
//! - `proofs/OneFault.antt`: a text has one fault at most, and none where it says generators.
//!
//! Below are `kb_presfile`, whose definitions say how many equations there may be, `kb_fields`, `kb_record`, which
//! reads trees and evaluates words, and `kb_word`.
#![tactic(auto)]

mod error;
mod laws;
mod reader;
mod words;

pub use error::SubError;
pub use laws::{
    a_subgroup_file_has_no_fault, a_subgroup_file_has_one_fault, a_text_says_one_list_of_generators,
};
pub use reader::read;
