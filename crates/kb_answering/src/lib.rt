//! Word lines answered with least words, and limits that are shown: what commands of two families do at their end.
//!
//! A command that has found what belongs to a presentation stores it as files and answers word lines with least
//! words. One that came to a limit stores what shows that, and writes the line that says so.
//!
//! # The public contract
//!
//! A command says by [`Concludes`] which files belong to a presentation, what shows a limit, and what it may store.
//! [`store_and_answer`] and [`show_limit`] are runs by `AnswersMean` of `specs/Answers.antt`, which has what each
//! status means. The laws that such runs keep, for the promise of the command, are in `specs/AnswerLaws.antt`.
//!
//! - `concludes` is what a command says of itself.
//! - `answering` stores files and answers word lines, `showing` stores files and writes a line, and `storing` is what
//!   both begin with.
//! - `figures` says how a completion ended, for the last line of a long run.
//!
//! Below are `kb_lines`, which reads and answers lines, `kb_evidence`, and `kb_task`, with files and statuses.
#![tactic(auto)]

mod answering;
mod concludes;
mod figures;
mod showing;
mod storing;

pub use answering::store_and_answer;
pub use concludes::Concludes;
pub use figures::{figures_of, limit_of_log};
pub use showing::show_limit;
