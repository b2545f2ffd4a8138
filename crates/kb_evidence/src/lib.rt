//! The files that belong to a presentation's file, and what shows that a completion reached a limit.
//!
//! Commands of two families complete presentations, and store the same where a limit is reached: a log, which is
//! justified line by line, and rules. The public contract:
//!
//! - [`rules_file`], [`acceptor_file`], [`log_file`], [`difference_file`], [`multiplier_file`], [`minred_file`] and
//!   [`minkb_file`] name the files that stand beside the presentation's, and `specs/Files.antt` says how;
//!   `specs/FileLaws.antt` has that they are different files.
//! - [`halted`] is given a completion that halted at a limit of its log, and [`too_large`] one whose word acceptor
//!   would be too large. Each makes an [`Evidence`]: the limit, the files that are to be stored (`halted_texts` and
//!   `too_large_texts` of `specs/Files.antt`), and the line that is to be written. What makes them evidence is proved
//!   of the completion (`kb_system`), and stands in the promises of the commands.
//! - `ShowsLimit` of `specs/Shown.antt` says which files and which line show a limit of a completion, and
//!   `proofs/ShownLemmas.antt` how these are named.
//! - `IsYesOrStates` of `specs/Settled.antt` says which statuses of a command that completes the file settles, and
//!   `specs/SettledLaws.antt` that there is one of them.
//! - [`evidence_files`] makes a log and rules into files, [`limit_reached`] is what the limit of a log is called, and
//!   [`both`] makes a list of two files.
//!
//! Below are `kb_proof` and `kb_presprint`, which print logs and rules, `kb_system`, and `kb_task`, with limits and
//! files.
#![tactic(auto)]

mod evidence;
mod file_names;

pub use evidence::{Evidence, both, evidence_files, halted, limit_reached, too_large};
pub use file_names::{
    acceptor_file, difference_file, log_file, minkb_file, minred_file, multiplier_file, rules_file,
};
