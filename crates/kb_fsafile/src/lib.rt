//! Automaton files: from bytes to automata.
//!
//! A file is the text of a record, `NAME := rec( FIELDS )`. Its own name is free, and of its fields these count;
//! others are read and ignored.
//!
//! - `isFSA`: the Name `true`.
//! - `alphabet`: a record. Its `type` is `"identifiers"`, with `names`, a list of at most 1,000 Names, none of them
//!   twice and none `IdWord` or `_`, their number `size`, and `format` `"dense"` or absent; or `"product"`, with
//!   `arity` 2, `base`, a record of the first type, and `size`, which is (n + 1)^2 - 1 or (n + 1)^2 for n names.
//!   Then the automaton reads pairs of words as padded texts.
//! - `states`: a record, its `type` `"simple"`, its `size` the number of states.
//! - `initial`: a list of the initial state's number; the empty list means that nothing is accepted.
//! - `accepting`: a list of numbers of states, or a range.
//! - `table`: a record. Its `format` is `"dense deterministic"`, where `transitions` has a row for each state, with
//!   a target for each symbol in order; or `"sparse"`, where a row lists `[symbol,target]`. Target 0 is none. Its
//!   `defaultTarget` is 0 or absent.
//!
//! An automaton of pairs that accepts a text with a letter after padding on one track, or with a pair of two
//! paddings, is refused. Of one that accepts none, the moves (transitions) by two paddings are dropped, and those
//! that some text takes with a letter after padding.
//!
//! # The public contract
//!
//! [`read`] returns the names and the automaton that the bytes hold (`AutomatonOf` of `specs/Holds.antt`). A
//! refusal names the first fault that the bytes have (`HasFsaFault` of `specs/Faults.antt`): of those of a text
//! the one that a check finds before which no check finds any. The checks stand in the order of refusals
//! (`specs/Checks.antt`): names of fields that stand twice, then field by field, then row by row and entry by
//! entry, and last the padding of accepted texts. The laws complete that: by [`an_automaton_file_has_no_fault`]
//! no bytes are both read and refused, by [`an_automaton_file_has_one_fault`] they are refused for one fault at
//! most, and by [`a_text_says_one_automaton`] they are read in one way at most. So, want of memory apart, the
//! bytes alone say whether they are refused, and for what.
//!
//! [`read_language`] is for who needs the language alone. It refuses the same bytes, and returns an automaton
//! that accepts the same texts (`LanguageOf` of `specs/Languages.antt`): of the states that texts lead to,
//! unless these are most.
//!
//! # How it is made
//!
//! - `fields` looks up fields of their kinds, and `values` tells strings, ranges and lists of pairs of numbers from
//!   other values, and states and targets from other numbers.
//! - `header`, `alphabet`, `states`, `initial`, `accepting` and `table` read a field each. Numbers of states are up
//!   to 10^18 before the rows are seen to be as many, so the accepting states are marked after the rows.
//! - `rows` reads the rows of a table, dense or sparse, as ascending symbols with targets that are states. A row that
//!   the tree keeps as numbers is read where it stands, and a sparse row needs no map where its symbols ascend.
//! - `reached` finds the states that texts lead to, so that the others aren't kept where they are many.
//! - `kb_padding` drops moves of automata of pairs, or refuses them. By then the tree of the text is let go.
//! - `reader` joins them, each step a function called in the order of the refusals.
//!
//! # Where the definitions and proofs are
//!
//! Definitions speak of the tree of the text: in `specs/` the kinds of values in `Kinds`, what a text holds in
//! `Holds`, the order of the checks in `Checks`, where fields stand in `Standing`, and what each check finds in
//! `Faults`; what the functions for fields and rows return in `Reading` and `RowsRead`. In `proofs/`,
//! `CheckLemmas` has that of two checks one comes first, `FirstLemmas`, `Refused` and `RowFaults` that what a
//! function refuses is the first fault, `NoFault` that checks find nothing in what is read, and `OneFault` and
//! `UniqueAutomaton` the laws; `ReachedStates` has the table as a machine, and `RenamedRows` and `PairStates`
//! that an automaton of pairs may be cleaned after the states are left out that no text leads to.
//!
//! Below are `kb_record` (trees), `kb_fields` (fields), `kb_fsa` (automata), `kb_explore` (states that texts
//! lead to) and `kb_padding` (moves that no padded text takes).
#![tactic(auto)]

mod accepting;
mod alphabet;
mod error;
mod fields;
mod format;
mod header;
mod initial;
mod laws;
mod reached;
mod reader;
mod rows;
mod states;
mod table;
mod values;

pub use error::{Field, FsaError};
pub use laws::{
    a_text_says_one_automaton, an_automaton_file_has_no_fault, an_automaton_file_has_one_fault,
    fields_of_automata_have_one_fault,
};
pub use reader::{read, read_language};
