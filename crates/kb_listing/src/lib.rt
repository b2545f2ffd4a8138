//! Accepted words, each on a line, in the shortlex order: what commands of two families print.
//!
//! # The public contract
//!
//! [`list_words`] prints the words of the lengths that are asked for that an automaton accepts (`WordsArePrinted` of
//! `specs/Asked.antt`): all of them, each once, in ascending order; or a front of their lines, where the output fails
//! or memory runs out. The words go out as they are found, in memory that doesn't grow with their number. The laws
//! that such runs keep, for the promise of a command, are in `specs/AskedLaws.antt`: the words are one list, and a
//! yes writes them all. `specs/Listed.antt` says how far a listing has come.
//!
//! Below are `kb_fsarat`, which finds the next accepted word, and `kb_task`, with statuses.
#![tactic(auto)]

mod listing;

pub use listing::list_words;
