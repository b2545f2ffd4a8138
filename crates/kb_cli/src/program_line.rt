//! The program's command line, made of its families' parts.

ghost use Rattle.std.specs.Prelude.{◌≡◌, IfOk};
ghost use Rattle.clap.specs.Words.{app_of};
ghost use Rattle.kb_cli.specs.CommandLine.{bare_app, line_app};

use std::alloc::{AllocError, Global};

/// The program with its commands.
pub(crate) fn program_line<'a>(alloc: Global) -> Result<clap::Command<'a>, AllocError>
    ensures { IfOk result (λ command. app_of command ≡ line_app) }
{
    let program = bare_program(alloc)?;
    let program = kb_commands::words::add_commands(alloc, program)?;
    let program = kb_commands::completion::add_commands(alloc, program)?;
    let program = kb_commands::structures::add_commands(alloc, program)?;
    let program = kb_commands::elements::add_commands(alloc, program)?;
    let program = kb_commands::proofs::add_commands(alloc, program)?;
    kb_commands::automata::add_commands(alloc, program)
}

/// The program without commands.
fn bare_program<'a>(alloc: Global) -> Result<clap::Command<'a>, AllocError>
    ensures { IfOk result (λ command. app_of command ≡ bare_app) }
{
    let program = clap::Command::new(alloc, "kb")
        .about(
            "Computes with words in finitely presented groups and monoids, and with automata on words",
        )
        .after_help(AFTER_HELP)
        .version(VERSION)
        .no_binary_name(true)
        .bin_name("kb")?;
    Ok(
        program
            .subcommand_required(true)
            .arg_required_else_help(true),
    )
}

/// The command of this name, as its usage calls it; the program where there is none.
pub(crate) fn command_line_of<'a>(
    alloc: Global,
    name: &str,
) -> Result<clap::Command<'a>, AllocError> {
    let called = format!(in alloc; "kb {name}")?;
    if let Some(command) = kb_commands::words::command_named(alloc, name)? {
        return command.bin_name(called.as_str());
    }
    if let Some(command) = kb_commands::automata::command_named(alloc, name)? {
        return command.bin_name(called.as_str());
    }
    if let Some(command) = kb_commands::completion::command_named(alloc, name)? {
        return command.bin_name(called.as_str());
    }
    if let Some(command) = kb_commands::elements::command_named(alloc, name)? {
        return command.bin_name(called.as_str());
    }
    if let Some(command) = kb_commands::structures::command_named(alloc, name)? {
        return command.bin_name(called.as_str());
    }
    if let Some(command) = kb_commands::proofs::command_named(alloc, name)? {
        return command.bin_name(called.as_str());
    }
    program_line(alloc)
}

/// What `--version` says after the program's name: its version, and what proved means.
const VERSION: &str = "\
0.9.0
Status 0 is a theorem: the answer to each word line is the least word equal to it (by kbcos, in its right coset), rules stored are complete, and each automaton stored has exactly the stated language.";

/// What `--help` says after the list of commands.
const AFTER_HELP: &str = "\
Words and completion: wordreduce, kbprog, logread
Automatic structures: autgroup, gpaxioms, gpminkb
Elements:             ball, kbcos
Proofs by logs:       kbverify, kbcertify
Automata:             fsaand to fsacount
The program itself:   selftest, help

`kb COMMAND --help` names the files that a command stores, and says how input ends.
Exit status: 0 answered, 1 refused, 2 limit reached, 3 no, 4 no memory, 5 device failed, 6 usage.
Files are GAP records as KBMAG has them; docs/formats.md has every form.
Example: echo 'i*j*i^-1*j^-1*i^2' | kb wordreduce examples/quaternion";
