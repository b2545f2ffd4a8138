//! From automata to bytes; and what is written is read again.
//!
//! # The public contract
//!
//! [`write`] returns the one printed text of a canonical automaton over any names: `text_of_automaton` of
//! `specs/Printed.antt`, the printed text of its tree. Over at most 126 names each state has a dense row, with a target
//! for each symbol; over more names it has a sparse one, with its moves. By
//! [`a_written_automaton_is_a_text_of_its_tree`] what is written is a text of that tree. Where the names are names of
//! generators, it is read as that automaton ([`a_written_automaton_is_read_again`]).
//!
//! # Where the definitions and proofs are
//!
//! In `specs/`, `Printed` has the tree and its text, and `Writing` rows on their way. In `proofs/`, `Writings` has the
//! text piece by piece, `WrittenTrees` the tree, and `WrittenAutomata` what the tree says.
//!
//! Below are `kb_layout` (printed texts), `kb_fsafile`, which reads what is written, with `kb_record` (trees)
//! and `kb_fields`, and `kb_fsa` (automata).
#![tactic(auto)]

mod format;
mod laws;
mod writer;

pub use laws::{a_written_automaton_is_a_text_of_its_tree, a_written_automaton_is_read_again};
pub use writer::write;
