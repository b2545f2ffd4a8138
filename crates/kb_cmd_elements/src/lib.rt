//! Commands on the elements of what is presented: `ball FILE R` and `kbcos FILE`.
//!
//! The public contract is that of `kb_task::Task`, with what each command's statuses mean in `specs/`. `ball` prints
//! the least words of at most R letters, each on a line, in the shortlex order (`Ball`): each element that some word
//! of at most R letters stands for has one line, its least word, and there is no other line (`IsBall` of
//! `specs/Balls.antt`). Where a limit is reached it stores what shows that, as `kbprog` does. By the laws of `Task` a
//! yes is one function of the command and its file. Whether a limit of the log is reached may depend on the course;
//! where none is, the file settles whether the word acceptor is too large (`IsYesOrStates` of `kb_evidence`).
//!
//! `kbcos` stores the rules of the presentation that marks the right cosets of a subgroup, and answers each word line
//! with the shortlex least word of its coset (`CosetsMean` of `specs/CosetAnswers.antt`). Two words have one answer
//! exactly where the marked words are congruent, and exactly where the first followed by the inverse of the second is
//! equal to a product of the subgroup's generators and their inverses (`TellCosets` of `specs/CosetsTold.antt`).
//!
//! - `ball` and `kbcos` are the commands, `outcome` and `coset_outcome` what a completion came to, `coset_words`
//!   answers with least words of cosets, and `task` has the enum of the family.
//!
//! # Where the proofs are
//!
//! - `proofs/BallLemmas.antt`: the words that the word acceptor of a completed presentation accepts up to a length
//!   are the ball.
//! - `proofs/RunLemmas.antt`, `proofs/KbcosRuns.antt`: what a run means, from what it means after the load of its
//!   files.
//! - `proofs/CosetsToldLemmas.antt`: least words of cosets tell the cosets apart, by the laws of `kb_coset`.
//! - `proofs/CosetRuns.antt`: rules that are stored, and word lines that are answered with least words of cosets.
//!
//! Below are `kb_system` and `kb_complete`, which complete presentations, `kb_coset`, which marks cosets
//! and answers with their least words, `kb_listing`, which prints accepted words, `kb_progress`, which shows
//! how far a completion has come, `kb_evidence` and `kb_answering`, with what shows a limit, and `kb_task`.
#![tactic(auto)]

mod ball;
mod coset_outcome;
mod coset_words;
mod kbcos;
mod outcome;
mod task;

pub use ball::Ball;
pub use kbcos::Kbcos;
pub use task::ElementsTask;
