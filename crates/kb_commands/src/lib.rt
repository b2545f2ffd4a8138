//! The commands on the command line: what each takes and says in its help, and the command that its arguments give.
//!
//! Each family of commands has a module: [`words`], [`completion`], [`structures`], [`elements`], [`proofs`] and
//! [`automata`]. The public contract is that of its calls, by the file of its name in `specs/`:
//!
//! - `add_commands` adds the family's commands to a program, as `clap` defines what a command takes.
//! - `entered_command` returns the command that the matches of a program give, and none exactly where they give none
//!   of the family (`ReadsAs` of `specs/Arguments.antt`).
//! - `command_named` returns the definition of the command of a name. It is for the texts of faults, so that no clause
//!   speaks of it.
//!
//! # Where things are
//!
//! - In a family of several commands `name` has their names and their help, `definition` what they take, and `reading`
//!   the commands that arguments give.
//! - `label` has how a command is called and what its help says.
//! - `arguments` has the arguments and options that commands take in the same way, and what is given for them.
//! - `limits` has the options of a completion: its workers and its limits.
//! - `proofs/ArgumentLemmas.antt`: what is given under a name, and a program with one more subcommand.
//! - `proofs/LimitLemmas.antt`: options give one list of limits at most.
//! - `proofs/WordsLemmas.antt` and its like for the other families: one entered subcommand is one command at most, and
//!   what is read of its arguments is read of it.
//!
//! Below are the families of commands, and `kb_book`, with limits.
#![tactic(auto)]

mod arguments;
pub mod automata;
pub mod completion;
pub mod elements;
mod label;
mod limits;
pub mod proofs;
pub mod structures;
pub mod words;
