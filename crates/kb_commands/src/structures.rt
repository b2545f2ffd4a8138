//! The commands on automatic structures on the command line.

ghost use Rattle.std.specs.Prelude.{◌≡◌, IfOk};
ghost use Rattle.clap.specs.Words.{app_of, subcommand_rows_of};
ghost use Rattle.kb_commands.specs.Arguments.{ReadsAs};
ghost use Rattle.kb_commands.specs.Structures.{with_structures, IsStructuresTask};

mod definition;
mod name;
mod reading;

use self::definition::definition;
use self::name::{NAMES, Name};
use self::reading::task_given;
use clap::ArgMatches;
use kb_cmd_structures::StructuresTask;
use kb_word::Memory;
use std::alloc::{AllocError, Global};

/// Adds the commands to a program.
pub fn add_commands<'a>(
    alloc: Global,
    program: clap::Command<'a>,
) -> Result<clap::Command<'a>, AllocError>
    ensures { IfOk result (λ added. app_of added ≡ with_structures (app_of program.entry)) }
{
    let mut program = program;
    for name in NAMES {
        program = program.subcommand(definition(alloc, name)?)?;
    }
    Ok(program)
}

/// The definition of the command of this name, if it is one of these.
pub fn command_named<'a>(
    alloc: Global,
    name: &str,
) -> Result<Option<clap::Command<'a>>, AllocError> {
    match Name::named(name) {
        Some(name) => Ok(Some(definition(alloc, name)?)),
        None => Ok(None),
    }
}

/// The command that the matches of a program give, if they are of one of these.
pub fn entered_command(
    alloc: Global,
    matches: &ArgMatches<'_>,
) -> Result<Option<StructuresTask>, Memory>
    ensures { IfOk result (ReadsAs IsStructuresTask (subcommand_rows_of matches.now)) }
{
    let Some((text, inner)) = matches.subcommand() else {
        return Ok(None);
    };
    let Some(name) = Name::named(text) else {
        return Ok(None);
    };
    task_given(alloc, name, inner)
}
