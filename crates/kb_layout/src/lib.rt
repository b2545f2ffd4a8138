//! The printed texts of records: how a tree is laid out, the call that prints one, and what printers of files append
//! piece by piece.
//!
//! # The public contract
//!
//! A tree has one printed text, `printed` of `specs/Layout.antt`: a line for each field and for each place of a list
//! of lists, two blanks for each level, and no more blanks than that and around `:=`. By the law
//! [`a_printed_text_is_read_again`] the printed text of a tree whose names, numbers and strings can be spelled is a
//! text of that tree, and by [`what_is_read_can_be_printed`] the tree of each text is such.
//!
//! [`print`] appends the printed text of a tree. Where memory runs out, it leaves the buffer as it was.
//!
//! A printer of files holds no tree: it appends the pieces of the printed text of the tree that it means, in order.
//! [`print_indent`] appends the blanks of a level, [`print_number`] a number, and [`print_names`] a list of names.
//! Where memory runs out, the first two leave the buffer as it was too.
//!
//! # Where the functions, definitions and proofs are
//!
//! `trees` goes down a tree, and appends its pieces in order: `print_on_line` what stands on one line, `print_value`
//! what stands at a level. `rows` appends the lists that keep their numbers side by side, and `printing` what the
//! printers of files append too.
//!
//! In `specs/`, `Layout` has the printed texts, on one line and at a level, and which trees can be spelled, and
//! `Printing` texts that are printed up to a piece. In `proofs/`, for the printers of files too:
//!
//! - `PrintedPieces`: texts that are printed piece by piece. A list is printed by its places, whatever items they are
//!   kept as. `WrittenTexts`: texts one behind another, lists of names, and the lines of fields.
//! - `PrintedTrees`: words, records and lists as pieces, for `print`.
//! - `PrintedTokens`, with `TokenTexts` and `Numerals`: the tokens of a printed text are those of its tree.
//!   `SpelledTrees`: the trees of texts can be spelled.
//! - `WrittenLists`, `SpelledValues`: lists of names and of numbers, names and strings that can be spelled.
//!
//! Below are `kb_record`, whose grammar says what a text of a tree is, with `kb_lexing` and its tokens, `kb_ragged`
//! with lists of lists, `kb_fields` with lists of names, and `kb_word`. No reader stands on what is printed.
#![tactic(auto)]

mod laws;
mod printing;
mod rows;
mod trees;

pub use laws::{a_printed_text_is_read_again, what_is_read_can_be_printed};
pub use printing::{print_indent, print_names, print_number};
pub use trees::print;
