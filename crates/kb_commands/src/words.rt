//! `wordreduce` on the command line.

ghost use Rattle.std.specs.Prelude.{◌≡◌, IfOk, false};
ghost use Rattle.clap.specs.Words.{app_of, found_of, rows_of, subcommand_rows_of};
ghost use Rattle.clap.specs.declared.builder.command.Command.TheViews.{out-Command as fields_of};
ghost use Rattle.kb_commands.specs.Arguments.{ReadsAs};
ghost use Rattle.kb_commands.specs.Words.{file_app, with_options, with_wordreduce, wordreduce_app, IsWordReduce, GivenAs};

use crate::arguments::{
    NumberOption, flag_given, flag_option, help_end, needed_argument, number_option, option_given,
    text_given,
};
use clap::{ArgMatches, Command};
use kb_cmd_words::WordReduce;
use kb_word::{Memory, OwnedText};
use std::alloc::{AllocError, Global};

/// Adds the command to a program.
pub fn add_commands<'a>(alloc: Global, program: Command<'a>) -> Result<Command<'a>, AllocError>
    ensures { IfOk result (λ added. app_of added ≡ with_wordreduce (app_of program.entry)) }
{
    program.subcommand(definition(alloc)?)
}

/// The definition of the command of this name, if it is this one.
pub fn command_named<'a>(alloc: Global, name: &str) -> Result<Option<Command<'a>>, AllocError> {
    if name == "wordreduce" {
        return Ok(Some(definition(alloc)?));
    }
    Ok(None)
}

/// The command that the matches of a program give, if they are of this one.
pub fn entered_command(
    alloc: Global,
    matches: &ArgMatches<'_>,
) -> Result<Option<WordReduce>, Memory>
    ensures { IfOk result (ReadsAs IsWordReduce (subcommand_rows_of matches.now)) }
{
    let Some((name, inner)) = matches.subcommand() else {
        return Ok(None);
    };
    if name != "wordreduce" {
        return Ok(None);
    }
    wordreduce_given(alloc, inner)
}

/// The command that the matches of `wordreduce` give.
fn wordreduce_given(alloc: Global, matches: &ArgMatches<'_>) -> Result<Option<WordReduce>, Memory>
    ensures { IfOk result (GivenAs (rows_of (found_of matches.now))) }
{
    let Some(file) = text_given(matches, "file") else {
        return Ok(None);
    };
    let Some(workers) = option_given(matches, NumberOption::Workers) else {
        return Ok(None);
    };
    let Some(batch) = option_given(matches, NumberOption::Batch) else {
        return Ok(None);
    };
    Ok(Some(WordReduce {
        file: OwnedText::from_str(alloc, file)?,
        workers,
        batch,
        by_log: flag_given(matches, "log"),
    }))
}

/// `wordreduce FILE`, its number of workers, how many words are answered together, and whether the log answers.
fn definition<'a>(alloc: Global) -> Result<Command<'a>, AllocError>
    ensures app { IfOk result (λ command. app_of command ≡ wordreduce_app) }
    ensures local { IfOk result (λ command. (fields_of command).has_globals ≡ false) }
{
    with_options(alloc, file_definition(alloc)?)
}

/// `wordreduce FILE` without its options.
fn file_definition<'a>(alloc: Global) -> Result<Command<'a>, AllocError>
    ensures app { IfOk result (λ command. app_of command ≡ file_app) }
    ensures local { IfOk result (λ command. (fields_of command).has_globals ≡ false) }
{
    let file = needed_argument(
        alloc,
        "file",
        "FILE",
        "A presentation file (GAP record); its relations must be confluent as rules",
    );
    Command::new(alloc, "wordreduce")
        .about("Prints, for the word on each line of standard input, the least word that equals it")
        .after_help(help_end!(
            "Words come from standard input, one a line; end with Ctrl-D; `</dev/null` for none.",
            "No file is stored. With --log the lines of FILE.kblog must prove FILE's relations, and be confluent.",
            "Example: echo 'a*b*a*b' | kb wordreduce examples/symmetric-3"
        ))
        .arg(file)
}

/// A command with the options of `wordreduce` added.
fn with_options<'a>(alloc: Global, command: Command<'a>) -> Result<Command<'a>, AllocError>
    requires { (fields_of command).has_globals ≡ false }
    ensures app { IfOk result (λ added. app_of added ≡ with_options (app_of command.entry)) }
    ensures local { IfOk result (λ added. (fields_of added).has_globals ≡ false) }
{
    let log = flag_option(
        alloc,
        "log",
        "Checks FILE.kblog, and answers by its lines in place of FILE's relations",
    );
    command
        .arg(number_option(alloc, NumberOption::Workers))?
        .arg(number_option(alloc, NumberOption::Batch))?
        .arg(log)
}
