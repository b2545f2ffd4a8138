//! Logs as text: printing and reading them. And whether a log is justified, line by line.
//!
//! # The text
//!
//! The first line is `kblog 1` or `kblog 2`. Then comes a line for each line of the log, numbered from 1, and last, if
//! a pair waits, a line that begins with `open`. Each ends with a newline. Version 1 leaves the derivations out.
//!
//! ```text
//! kblog 2
//! 1 R1 b*a*b -> a*b*a : - : -
//! 2 M1,1,2 b*a*a*b*a -> a*b*a*a*b : - : -
//! open M1,2,2 a*b*a*a*a*b*a <> a*a*b*a*a*b*b : - : 0/2,1/2
//! ```
//!
//! A line's origin is `RI` for relation I, `MI,J,P` for the overlap of lines I and J at place P, `KI` for line I
//! killed, and `SI` for line I shortened. Words are printed as everywhere. A derivation is `-`, or its steps joined by
//! commas, each a place and a line's number.
//!
//! # The public contract
//!
//! [`print_log`] returns the text of a log (`text_of_log` of `specs/Printed.antt`). [`read_log`] is exact: it returns a
//! log where the bytes are the text of a log that can be read again (`IsPrintable` of `specs/Printable.antt`), and
//! refuses them else, with the first line that is not as it would be printed, or with the version that there isn't
//! (`specs/Faults.antt`). Whether lines and relations that a log names are there is asked by [`verify`].
//!
//! The laws complete that: by [`a_printed_log_has_no_fault`] no bytes are both read and refused, and by
//! [`a_text_is_of_one_log`] what is read of a printed log is that log; by [`bytes_have_one_log_fault`] a refusal
//! names the one fault that there is. They ask, as [`read_log`] does, that the names are Names and none is `IdWord`
//! (`AreReadableNames`), as the names of presentation files are. By [`logs_of_completions_are_read_again`] the log of
//! a completion is one that can be read again, up to the length that a file may have (`specs/Completions.antt`).
//!
//! [`verify`] checks a log over a presentation (`specs/Verifying.antt`). It answers `Yes` exactly where each line
//! follows from the relations and the lines before it (`IsJustified` of `kb_machine`), and so does that of the pair
//! that waits, neither of whose words an earlier line reduces. Else it answers `No`, with the number of the first
//! line for which there is a reason, and the first reason ([`Why`]). By [`a_log_is_verified_in_one_way`] one answer
//! at most may be given of a log, and by [`logs_that_say_the_same_have_one_answer`] that answer depends on its text
//! alone.
//!
//! # How it is made
//!
//! Bytes are cut at newlines, a line at blanks, and its parts at `*`, `,` and `/`. No part has a blank or a newline in
//! it. So each reader takes a slice that must be the whole text of its value, and says so exactly: the value,
//! or that there is none (`Reads` of `specs/Reading.antt`).
//!
//! - `cut` cuts bytes at a separator.
//! - `numbers`, `words`, `origin` and `steps` read and `printing` prints the parts.
//! - `fields` cuts a line into its parts, and `line` reads them.
//! - `header` reads the first line, and `reader` the whole.
//! - `verifying` checks the lines of a log one after another: `checker` has what is kept of the lines before. `origins`
//!   finds the pair that an origin names, and `marks` whether what it uses up was used up before; `derivations` and
//!   `replay` take the steps; `earlier` has the index of the rules of the lines before, by which a word is irreducible
//!   exactly where it is its own normal form.
//! - `laws` says what printing and reading have to do with each other, and that a log has one answer.
//!
//! # Where the proofs are
//!
//! - `proofs/Bytes.antt`, `proofs/PartLemmas.antt`: bytes cut into parts, and parts joined again.
//! - `proofs/TextLemmas.antt`: which bytes the texts of numbers, names, words, steps and origins have.
//! - `proofs/LineLemmas.antt`, `proofs/LogLemmas.antt`: lines and their fields, and the lines of a log.
//! - `proofs/HeaderLemmas.antt`: the first line. `proofs/PrintLemmas.antt`: what is printed piece by piece.
//! - `proofs/SameLemmas.antt`, `proofs/FaultLemmas.antt`, `proofs/OneFault.antt`: the laws of texts.
//! - `proofs/TextLengths.antt`, `proofs/Completions.antt`: what a short text bounds, and the law of completions.
//! - `proofs/Standing.antt`: a line without a fault follows, and a justified log has no fault.
//!   `proofs/FirstFaults.antt`, `proofs/OneAnswer.antt`: the answers. `proofs/Replays.antt`: steps.
//!   `proofs/Naming.antt`, `proofs/Factors.antt`, `proofs/Marking.antt`: origins. `proofs/Leaving.antt`: normal
//!   forms. `proofs/Listed.antt`: lines by their numbers.
//!
//! Below are `kb_machine`, which has lines, `kb_word`, whose presentations name letters, `kb_lexing`, whose numbers
//! versions are, `kb_overlap`, which has critical pairs, and `kb_rules` and `kb_index`, which reduce words.
#![tactic(auto)]

mod cut;
mod error;
mod fields;
mod header;
mod laws;
mod line;
mod log;
mod numbers;
mod origin;
mod printing;
mod reader;
mod steps;
mod verified;
mod verifying;
mod words;

pub use error::LogError;
pub use laws::{
    a_log_is_verified_in_one_way, a_printed_log_has_no_fault, a_text_is_of_one_log,
    bytes_have_one_log_fault, logs_of_completions_are_read_again,
    logs_that_say_the_same_have_one_answer,
};
pub use log::{Log, Version};
pub use printing::{print_log, print_origin};
pub use reader::read_log;
pub use verified::{Verified, Why};
pub use verifying::verify;
