//! The commands of completion: `kbprog FILE`, `logread FILE` and `selftest N`.
//!
//! The public contract is that of `kb_task::Task`, with what each command's statuses mean in
//! `specs/`: `kbprog` stores the rules and the word acceptor of the completed presentation and
//! answers word lines by them, or stores what shows that a limit was reached (`Kbprog`, `Files`, and `AnswersMean` of
//! `kb_answering`);
//! `logread` says what a log that was stored holds (`Logread`); `selftest` completes a free abelian
//! group and counts its rules and its acceptor's states (`SelfTest`). By the laws of
//! `Task` a yes is one function of the command and its files. Whether a limit of the log is reached may
//! depend on the course; where none is, the files settle whether the word acceptor is too large
//! (`IsYesOrStates` of `kb_evidence`).
//!
//! - `kbprog`, `logread` and `selftest` are the commands, and `task` has the enum of all three.
//! - `files` makes the files of a completed presentation, and `conclusion` those or what shows a limit, by how a
//!   completion ended.
//! - `free_abelian` makes what `selftest` completes: the presentation of the free abelian group of a rank, by generators
//!   that commute (`free_abelian` of `specs/FreeAbelian.antt`).
//! - `printing` appends the parts of lines.
//!
//! Below are `kb_system`, which completes presentations, `kb_progress`, which shows how far that has come,
//! `kb_proof`, which prints and reads logs, `kb_evidence`, with the names of files and what shows a limit,
//! `kb_answering`, which stores files and answers word lines, and `kb_task`.
#![tactic(auto)]

mod conclusion;
mod files;
mod free_abelian;
mod kbprog;
mod logread;
mod printing;
mod selftest;
mod task;

pub use kbprog::Kbprog;
pub use logread::Logread;
pub use selftest::SelfTest;
pub use task::CompletionTask;
