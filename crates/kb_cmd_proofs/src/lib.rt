//! The commands about proofs by logs: `kbverify FILE` and `kbcertify FILE`.
//!
//! The public contract is that of `kb_task::Task`, with what each command's statuses mean in `specs/`. `kbverify`
//! reads a presentation and the log with derivations that belongs to it, and says whether the log is justified line
//! by line (`Kbverify`): a yes means that each line follows from the relations and the lines before it, so its sides
//! are equal in what is presented; a no names the first line for which there is a reason, and the first reason. By
//! the laws of `Task` the two files settle the answer. `kbcertify` completes a presentation and stores its rules and
//! its word acceptor with the log that certifies them, or what shows that a limit was reached (`Kbcertify`). The
//! presentation settles the rules and the word acceptor that a yes stores, and not which log; and, where no limit of
//! the log is reached, whether the word acceptor is too large (`IsYesOrStates` of `kb_evidence`).
//!
//! - `kbverify` and `kbcertify` are the commands, and `task` has the enum of all commands.
//! - `certificate` makes the files of a completion whose log is kept, and `finding` stores and writes what is found.
//!
//! Below are `kb_proof`, which reads and checks logs, `kb_system`, which completes and keeps the log, `kb_evidence`,
//! with the names of files and what shows a limit, and `kb_task`.
#![tactic(auto)]

mod certificate;
mod finding;
mod kbcertify;
mod kbverify;
mod task;

pub use kbcertify::Kbcertify;
pub use kbverify::Kbverify;
pub use task::ProofsTask;
