//! Presentation files: from bytes to presentations.
//!
//! A file is the text of a record, `NAME := rec( FIELDS )`. Its own name is free, and of its fields these
//! count; others are read and ignored.
//!
//! - `isRWS`: the Name `true`.
//! - `ordering`: the string `"shortlex"`, which stands where the field is absent, or `"wtlex"`.
//! - `generatorOrder`: a list of at most 1,000 Names, none of them twice and none `IdWord` or `_`.
//! - `weight`, where the ordering is `"wtlex"`, and ignored elsewhere: a list of numbers from 1 to 1,000, one for each
//!   generator.
//! - `inverses`: a list of Names and empty places, one place for each generator. Places that are missing are
//!   empty, and so are all where the field is absent; places past the last generator must be empty. The
//!   Name at a generator's place is its inverse, whose inverse is the generator.
//! - `equations`: a list of at most 65,535 lists of two words.
//!
//! # The public contract
//!
//! [`read`] answers the presentation that the bytes say (`PresentationOf` of `specs/Holds.antt`): the names in
//! the order of the letters, the inverses as letters, and each equation as the two words that its sides mean. A
//! refusal names the first fault that the bytes have (`HasPresFault` of `specs/Faults.antt`): of those of a
//! text the one that a check finds before which no check finds any. The checks stand in the order of refusals
//! (`specs/Checks.antt`): names of fields that stand twice, then field by field, and within them place by
//! place, generator by generator, equation by equation. The laws complete that: by
//! [`a_presentation_file_has_no_fault`] no bytes are both read and refused, by
//! [`a_presentation_file_has_one_fault`] they are refused for one fault at most, and by
//! [`a_text_says_one_presentation`] they are read in one way at most. So, want of memory apart, the bytes alone
//! say whether they are refused, and for what.
//!
//! # How it is made
//!
//! - `fields` refuses a name that stands twice in a record, and a needed field that is absent.
//! - `values` tells lists of places and pairs of words apart from other values.
//! - `header`, `order`, `generators`, `inverses` and `equations` read the fields. Words are evaluated over the
//!   presentation that has the names and the inverses, and no equations yet.
//! - `reader` joins them.
//!
//! Definitions speak of the tree of the text (`specs/Tree.antt` of `kb_record`) and of its fields and names of
//! generators (`specs/` of `kb_fields`): `specs/Kinds.antt` of the kinds of values, `specs/Holds.antt` of what a
//! text says, `specs/Checks.antt` of the order of checks, and `specs/Faults.antt` of what each check finds. Where a
//! field's name stands twice, "the value of the field" is that of the first.
//!
//! # Where the proofs are
//!
//! - `proofs/CheckLemmas.antt`: the order of the checks, and the first fault by steps.
//! - `proofs/NoFault.antt`, `proofs/FreeLemmas.antt`: which checks find nothing where a field is read.
//! - `proofs/FaultLemmas.antt`, `proofs/EquationFaults.antt`, `proofs/RefusalLemmas.antt`: what each function
//!   refuses is the first fault.
//! - `proofs/OneFault.antt`, `proofs/UniqueParts.antt`: a text's fields, and bytes, have one fault at most, or say one
//!   presentation.
//! - `proofs/PlaceLemmas.antt`, `proofs/EmptyPlaces.antt`, `proofs/InverseLemmas.antt`, `proofs/LetterSteps.antt`:
//!   names at places, empty places behind them, their letters, and whether those are mutual.
//! - `proofs/EquationLemmas.antt`, `proofs/OverLemmas.antt`, `proofs/WeightLemmas.antt`: lists of equations, letters of
//!   words that are generators, and numbers that are weights.
//!
//! Below are `kb_fields`, which looks up fields and reads names of generators, `kb_record`, which reads trees
//! and evaluates words, and `kb_word`, whose presentations are the answers.
#![tactic(auto)]

mod equations;
mod error;
mod fields;
mod generators;
mod header;
mod inverses;
mod laws;
mod order;
mod reader;
mod values;

pub use error::{Field, PresError};
pub use laws::{
    a_presentation_file_has_no_fault, a_presentation_file_has_one_fault,
    a_presentation_has_no_fault, a_text_says_one_presentation, fields_have_one_fault,
};
pub use reader::read;
