//! From presentations to bytes; and what is written is read again.
//!
//! # The public contract
//!
//! [`write`] returns the one printed text of a presentation with the rules of a list as its
//! equations: `text_of_presentation` of `specs/Printed.antt`, the printed text of its tree. The
//! text says besides whether the rules are confluent, as the caller knows.
//!
//! By [`a_written_presentation_is_a_text_of_its_tree`] what is written of rules over the generators is a
//! text of that tree. Where besides the names are names of generators, and a file has room for the rules, it is read
//! as the presentation that has the rules as its equations ([`a_written_presentation_is_read_again`]). The names and
//! weights of a presentation that was read are such ([`a_presentation_that_is_read_can_be_written`]).
//!
//! # How it is made
//!
//! `writer` appends the fields one after another, and the rules one by one, each word as `kb_word` prints it: no tree
//! of the text is made.
//!
//! # Where the definitions and proofs are
//!
//! In `specs/`, `Printed` has the tree and its text, `Printable` which texts can be read, `Written` what is read
//! again of them, and `Writing` pieces of the text. In `proofs/`, `Writings` has the text piece by piece,
//! `WrittenTrees` the tree, `WrittenWords` and `WrittenPresentations` what the tree says: a printed word means the
//! word. `ReadPresentations`: names that were read are Names.
//!
//! Below are `kb_layout` (printed texts), `kb_presfile`, which reads what is written, with `kb_record` (trees)
//! and `kb_fields`, `kb_word` (presentations) and `kb_rules`.
#![tactic(auto)]

mod laws;
mod writer;

pub use laws::{
    a_presentation_that_is_read_can_be_written, a_written_presentation_is_a_text_of_its_tree,
    a_written_presentation_is_read_again,
};
pub use writer::write;
