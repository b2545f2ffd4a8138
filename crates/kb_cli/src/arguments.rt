//! The command that the arguments are the line of.
//!
//! They are read by `clap`, whose definition of what a command takes is part of the contract.

ghost use Rattle.std.specs.Prelude.{◌≡◌, ◌≢◌, map, string_bytes, IfOk, IfErr};
ghost use Rattle.clap.specs.Words.{kind_of, subcommand_rows_of};
ghost use Rattle.kb_commands.specs.Arguments.{ReadsAs};
ghost use Rattle.kb_cli.specs.CommandLine.{IsCommand, IsLine, Explains, IsUsageOf};

use crate::command::Command;
use crate::program_line::{command_line_of, program_line};
use clap::ArgMatches;
use clap::error::ErrorKind;
use kb_word::Memory;
use std::alloc::{AllocError, Global};

/// Why arguments are no command.
#[derive(Drop)]
pub enum UsageError {
    /// The arguments are no line of the program, or ask for help or for the version.
    Usage {
        /// What is wrong with them, in `clap`'s terms.
        kind: ErrorKind,
        /// The text for the user.
        text: String,
    },
    /// Memory ran out.
    Memory,
}

impl From<AllocError> for UsageError {
    ghost use Rattle.kb_cli.specs.declared.arguments.UsageError.TheVariants as error;

    ghost from_gives = { λ _ answer. answer ≡ error.Memory };

    fn from(_: AllocError) -> UsageError {
        UsageError::Memory
    }
}

impl From<Memory> for UsageError {
    ghost use Rattle.kb_cli.specs.declared.arguments.UsageError.TheVariants as error;

    ghost from_gives = { λ _ answer. answer ≡ error.Memory };

    fn from(_: Memory) -> UsageError {
        UsageError::Memory
    }
}

/// Reads the arguments, which are the words after the program's name.
///
/// They are a command exactly where `clap` finds no fault in them and the numbers among them have neither a sign nor
/// a zero before another digit. Arguments that ask for help or for the version are none.
pub fn read_arguments(alloc: Global, arguments: &[String]) -> Result<Command, UsageError>
    ensures ok { IfOk result (IsLine (map string_bytes arguments.now)) }
    ensures err { IfErr result (Explains (map string_bytes arguments.now)) }
{
    let matches = match program_line(alloc)?.try_get_matches_from(arguments) {
        Ok(matches) => matches,
        Err(error) => return Err(usage_error(alloc, &error)?),
    };
    match entered_command(alloc, &matches)? {
        Some(command) => Ok(command),
        None => Err(number_error(alloc, &matches)?),
    }
}

/// The command that was entered.
fn entered_command(alloc: Global, matches: &ArgMatches<'_>) -> Result<Option<Command>, Memory>
    ensures { IfOk result (ReadsAs IsCommand (subcommand_rows_of matches.now)) }
{
    if let Some(task) = kb_commands::words::entered_command(alloc, matches)? {
        return Ok(Some(Command::WordReduce(task)));
    }
    if let Some(task) = kb_commands::automata::entered_command(alloc, matches)? {
        return Ok(Some(Command::Automata(task)));
    }
    if let Some(task) = kb_commands::completion::entered_command(alloc, matches)? {
        return Ok(Some(Command::Completion(task)));
    }
    if let Some(task) = kb_commands::elements::entered_command(alloc, matches)? {
        return Ok(Some(Command::Elements(task)));
    }
    if let Some(task) = kb_commands::structures::entered_command(alloc, matches)? {
        return Ok(Some(Command::Structures(task)));
    }
    if let Some(task) = kb_commands::proofs::entered_command(alloc, matches)? {
        return Ok(Some(Command::Proofs(task)));
    }
    Ok(None)
}

/// What `clap` answers in place of matches.
fn usage_error(alloc: Global, error: &clap::Error) -> Result<UsageError, Memory>
    ensures kind { IfOk result (λ answer. IsUsageOf (kind_of error.now) answer
        × (kind_of error.now ≢ ErrorKind.OutOfMemory)) }
{
    match error.kind() {
        ErrorKind::OutOfMemory => Err(Memory),
        kind => Ok(UsageError::Usage {
            kind,
            text: format!(in alloc; "{error}")?,
        }),
    }
}

/// The error of a number that `clap` takes, with a sign or a zero before another digit.
fn number_error(alloc: Global, matches: &ArgMatches<'_>) -> Result<UsageError, Memory>
    ensures kind { IfOk result (λ answer. IsUsageOf ErrorKind.ValueValidation answer) }
{
    let name = matches.subcommand_name().unwrap_or_default();
    let error = command_line_of(alloc, name)?.error(
        ErrorKind::ValueValidation,
        "a number is written in digits, with neither a sign nor a zero before another digit",
    )?;
    usage_error(alloc, &error)
}
