//! The commands on automatic structures: `autgroup FILE`, which makes that of a group, `gpaxioms FILE`, which checks
//! automata that may be it, and `gpminkb FILE`, which makes the reduced complete system of a group of it.
//!
//! The public contract is that of `kb_task::Task`, with what the statuses mean in `specs/Autgroup.antt`,
//! `specs/Gpaxioms.antt` and `specs/Gpminkb.antt`. The commands are given a group by a presentation. No option but
//! `--log` changes an answer yes or no; whether a limit is reached may depend on the options, and on the course of
//! the completion.
//!
//! # What `autgroup` promises
//!
//! A yes means that the files of the group's own automatic structure were stored, whole: the canonical word acceptor
//! and a canonical multiplier for each generator (`specs/Made.antt`). Then each word of the input was answered with
//! the least word of its element, by the multipliers. By the laws of `Task` the group settles what is stored and
//! written: it has one such structure (`specs/OneStructure.antt`).
//!
//! At a limit what shows it is stored, and no word is read (`specs/Tried.antt`): the log of the completion, its
//! rules, and the word differences that were kept, each with two words that show it to be one.
//!
//! # What `gpaxioms` promises
//!
//! It is given automata besides, in files beside that of the presentation (`specs/Loaded.antt`). A yes means that
//! they are the group's own structure (`IsAutomaticStructure` of `kb_structure`), a no that they aren't, with the
//! first certificate, whose line `specs/Lines.antt` has. At a limit of states no certificate comes before the count
//! that is named. By the laws of `Task` the files settle all three: there is one first certificate, and none against
//! automata that are the group's own (`specs/FirstCertificates.antt`), and so it is with counts, of which none comes
//! beside a certificate (`specs/FirstCounts.antt`). At a limit of the completion its log and its rules are stored:
//! there is no certificate but perhaps of the last kind, and the rules don't settle that.
//!
//! With `--log` nothing is completed and no file is stored: the lines of the log beside the group's file decide, once
//! it is justified (`specs/ByLog.antt`). A log that isn't is a no, with its first line that doesn't follow; one whose
//! lines don't settle what the automata are is refused. The files settle that, too: there is one first state whose
//! label words have different normal forms by the lines (`specs/FirstUnresolved.antt`), and nothing else is found
//! where there is one (`specs/UnresolvedLaws.antt`).
//!
//! # What `gpminkb` promises
//!
//! It does what `gpaxioms` does, and a no or a limit of that is its own. A yes means that the automata are the
//! group's own, and that two more were stored, each canonical: one accepts exactly the left sides of the reduced
//! complete system by its definition, the other exactly the pairs that are its rules, also where there are infinitely
//! many (`specs/ReducedSystem.antt`). The group settles both (`specs/OneSystem.antt`). They are made of the canonical
//! forms of the automata that were read, by `kb_minkb`, whose counts may be above the limit.
//!
//! # Where things are
//!
//! - `autgroup`, `gpaxioms` and `gpminkb` are the commands, and `task` has the enum of the family.
//! - `conclusion` makes what is stored and written of the search for a structure, and `evidence` what shows a limit
//!   of it; `printing` has the text of word differences, each with the pair of words at which it was first seen
//!   (`text_of_differences` of `specs/Printed.antt`).
//! - `automata_check` is the check of automata that `gpaxioms` and `gpminkb` have in common, by a completion.
//!   `by_log` is that by the lines of a log: `logged` loads it, `by_lines` decides, and `unresolved` says what the
//!   lines leave open.
//! - `loading` loads a group and automata; `finding` makes what is stored and written of what is found of them, and
//!   `certificates` the line of a certificate. `figures` says how a long run ended.
//! - `system` makes the reduced complete system of a group's own structure.
//! - `specs/Shown.antt` and `specs/ShownLaws.antt` have what a run means that loads automata and shows what is found of
//!   them, and its laws, for `gpaxioms` and `gpminkb`.
//!
//! Below are `kb_auto`, which searches and decides, `kb_bylog` with the lines of a log, `kb_labels` with what the label
//! words of a multiplier are by rules, `kb_answering`, which stores
//! and answers, `kb_evidence`, with what shows a limit, `kb_kept`, with where word differences were first seen,
//! `kb_reduce` with least words, `kb_progress`, which shows how far a completion has come, and `kb_task`.
#![tactic(auto)]

mod autgroup;
mod automata_check;
mod by_lines;
mod by_log;
mod certificates;
mod conclusion;
mod evidence;
mod figures;
mod finding;
mod gpaxioms;
mod gpminkb;
mod loading;
mod logged;
mod printing;
mod system;
mod task;
mod unresolved;

pub use autgroup::Autgroup;
pub use automata_check::AutomataCheck;
pub use gpaxioms::Gpaxioms;
pub use gpminkb::Gpminkb;
pub use task::StructuresTask;
