//! The program `kb` as one call over the outside.
//!
//! The public contract of the program is that of [`run`]. The exit status decides which statement of
//! `specs/Headline.antt` holds of the arguments, the files, the input and the output: where the arguments are the line
//! of a command, what that command's status means by its own crate; else why they are none. With every status a fault
//! is a failure that was counted, counts never fall, and no file changes but those that the command may store.
//!
//! The laws over all commands are public too: where nothing is refused there is an answer; where a file has a fault,
//! the first that has one is refused, for exactly its first fault; the files settle which of the statuses that they
//! settle it is; and what status 0 writes and stores is one function of the command without its options, of the files
//! and of the input.
//!
//! - `command` is the list of the families of commands, each of which is a crate; `program_line` is the program's
//!   command line, made of the families' parts, and `arguments` reads it.
//! - `program` is [`run`], and `messages` has [`report`], which writes the message to err that a status has. No clause
//!   speaks of it.
//!
//! Below are the families of commands, `kb_commands`, which says what the command line has of them, and `kb_task`, what
//! they have in common.
#![tactic(auto)]

mod arguments;
mod command;
mod laws;
mod messages;
mod program;
mod program_line;

pub use arguments::{UsageError, read_arguments};
pub use clap::error::ErrorKind;
pub use command::Command;
pub use kb_task::Status;
pub use laws::{
    a_file_with_a_fault_is_refused, a_refused_file_has_the_first_fault, arguments_are_one_command,
    no_line_is_faulty, one_answer_by_the_files, status_0_is_one_function,
    where_nothing_is_refused_there_is_an_answer,
};
pub use messages::report;
pub use program::run;
