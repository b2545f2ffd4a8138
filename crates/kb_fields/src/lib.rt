//! Fields of records, and lists of names of generators: what readers of presentations and of automata share.
//!
//! # The public contract
//!
//! - [`field_named`] looks a field up. Where a name stands twice, "the value of the field" is that of the first.
//!   A value that is kept as it is written is read again, so the one refusal is want of memory.
//! - [`repeated_name`] answers the name of a field that stands twice in some record, nested ones too, and none
//!   where no name does: of several, the one whose second place comes first in the text.
//! - [`bare_name`] takes a value that is a Name, [`number_of`] one that is a number and [`numbers_listed`] one that is
//!   a list of numbers, and they answer none for any other. [`number_at`] takes a place of a list, as [`number_of`] a
//!   value.
//! - [`names_of`] answers the names of generators that a value lists: at most 1,000 Names, none of them twice
//!   and none `IdWord` or `_`. A refusal names the first fault of the value (`HasNamesFault` of
//!   `specs/Generators.antt`): it is no list of Names; there are too many; a name is taken, the first that
//!   stands earlier in the list too, or is `IdWord` or `_`. By the laws a value has one fault at most
//!   ([`a_value_has_one_names_fault`]), and none where it lists such names
//!   ([`names_of_generators_have_no_fault`]): so, want of memory apart, the fault is exact.
//!
//! # How it is made
//!
//! - `fields` looks up fields, and finds names that stand twice by a set of the names seen. It recurses into
//!   records, whose nesting the parser bounds; at a place of a list, and in a field that is kept as it is written,
//!   `kb_record` finds them in one pass, however deep it is.
//! - `values` tells Names and lists of Names apart from other values, and `numbers` numbers and lists of numbers.
//!   Lists are read place by place, in whichever form they are kept; one kept as numbers is copied at once.
//! - `generators` joins them to names of generators: each name is pushed in turn, and one that was there is taken.
//!
//! Definitions speak of the tree of the text (`specs/Tree.antt` of `kb_record`): `specs/Fields.antt` of fields and
//! of values, `specs/Generators.antt` of names of generators. Of `kb_record` too are names that stand twice in a record
//! (`specs/Repeats.antt`), and what the first fault is of those that checks find (`specs/FirstFaults.antt`).
//!
//! # Where the proofs are
//!
//! These serve other crates too.
//!
//! - `proofs/ViewLemmas.antt`: the trees of words of one factor.
//! - `proofs/PlaceLemmas.antt`, `proofs/ListingLemmas.antt`, `proofs/NumberLemmas.antt`: places of lists, and lists
//!   whose places are all of one form.
//! - `proofs/RepeatLemmas.antt`, `proofs/RepeatOrder.antt`: names that stand twice in a record, and the first of them
//!   in the text, over `proofs/NamingLemmas.antt` of `kb_record`.
//! - `proofs/TakenLemmas.antt`: taken names.
//! - `proofs/FirstFaultLemmas.antt`, `proofs/NameFaults.antt`: first faults, and those of names of generators.
//! - `proofs/Outcomes.antt`: what follows from a clause on an outcome.
//!
//! Below are `kb_record`, which reads trees, and `kb_word`, whose names are the answers.
#![tactic(auto)]

mod error;
mod fields;
mod generators;
mod laws;
mod numbers;
mod values;

pub use error::NamesFault;
pub use fields::{field_named, repeated_name};
pub use generators::names_of;
pub use laws::{a_value_has_one_names_fault, names_of_generators_have_no_fault};
pub use numbers::{number_at, number_of, numbers_listed};
pub use values::{bare_name, written_name};
