//! The eleven commands on automata: `fsaand`, `fsaor`, `fsanot`, `fsamin`, `fsalequal`, `fsaexists`, `fsaconcat`,
//! `fsastar`, `fsareverse`, `fsaenumerate` and `fsacount`.
//!
//! The public contract is that of `kb_task::Task`, with what each command's statuses mean in `specs/`: a command that
//! makes an automaton stores the text of the canonical automaton of exactly the stated language (`Make`), `fsalequal`
//! compares two languages and shows the least difference (`Compare`), `fsaenumerate` prints the accepted words of
//! the lengths that are asked for, each once, in the shortlex order (`Enumerate`), and `fsacount` how many there are
//! (`Counted`). By the laws of `Task` the files settle which of these a run answers, and what status 0 writes and
//! stores is one function of the command and its files.
//!
//! Each kind of command is a struct in a file of its own, and `task` has the enum of all six kinds.
//!
//! Below are the operations on automata, their counts, their files and their canonical form, `kb_listing`, which
//! prints accepted words, and `kb_task`.
#![tactic(auto)]

mod combine;
mod compare;
mod counting;
mod enumerate;
mod files;
mod minimise;
mod task;
mod transform;

pub use combine::{Combination, Combine};
pub use compare::Compare;
pub use counting::CountAccepted;
pub use enumerate::Enumerate;
pub use files::FileToOut;
pub use minimise::Minimise;
pub use task::AutomataTask;
pub use transform::{Transform, Transformation};
