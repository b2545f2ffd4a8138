//! What the commands take, as `clap` is told.

ghost use Rattle.std.specs.Prelude.{◌≡◌, IfOk, false};
ghost use Rattle.clap.specs.Words.{app_of, rule_of};
ghost use Rattle.clap.specs.declared.builder.command.Command.TheViews.{out-Command as fields_of};
ghost use Rattle.kb_commands.specs.Proofs.{command_app, with_bounds, workers_rule};
ghost use Rattle.kb_commands.specs.declared.proofs.name.Name.TheVariants as names;

use super::name::Name;
use crate::arguments::{NumberOption, number_option, presentation_argument};
use crate::label::labelled;
use clap::{Arg, Command};
use std::alloc::{AllocError, Global};

/// The definition of a command.
pub(super) fn definition<'a>(alloc: Global, name: Name) -> Result<Command<'a>, AllocError>
    ensures app { IfOk result (λ command. app_of command ≡ command_app name) }
    ensures local { IfOk result (λ command. (fields_of command).has_globals ≡ false) }
{
    match name {
        Name::Kbverify => kbverify_definition(alloc),
        Name::Kbcertify => kbcertify_definition(alloc),
    }
}

/// `kbverify FILE`.
fn kbverify_definition<'a>(alloc: Global) -> Result<Command<'a>, AllocError>
    ensures app { IfOk result (λ command. app_of command ≡ command_app names.Kbverify) }
    ensures local { IfOk result (λ command. (fields_of command).has_globals ≡ false) }
{
    labelled(alloc, Name::Kbverify.label()).arg(presentation_argument(alloc))
}

/// `kbcertify FILE`, with the workers and the limits of a completion whose log is kept.
fn kbcertify_definition<'a>(alloc: Global) -> Result<Command<'a>, AllocError>
    ensures app { IfOk result (λ command. app_of command ≡ command_app names.Kbcertify) }
    ensures local { IfOk result (λ command. (fields_of command).has_globals ≡ false) }
{
    with_bounds(
        alloc,
        labelled(alloc, Name::Kbcertify.label())
            .arg(presentation_argument(alloc))?
            .arg(workers_option(alloc))?,
    )
}

/// A command with the limits of a completion added.
fn with_bounds<'a>(alloc: Global, command: Command<'a>) -> Result<Command<'a>, AllocError>
    requires { (fields_of command).has_globals ≡ false }
    ensures app { IfOk result (λ added. app_of added ≡ with_bounds (app_of command.entry)) }
    ensures local { IfOk result (λ added. (fields_of added).has_globals ≡ false) }
{
    command
        .arg(number_option(alloc, NumberOption::MaxRules))?
        .arg(number_option(alloc, NumberOption::MaxLen))?
        .arg(number_option(alloc, NumberOption::MaxStates))
}

/// The option of how many workers complete: one, where it isn't given, since the log depends on them.
fn workers_option<'a>(alloc: Global) -> Arg<'a>
    ensures rule { rule_of result ≡ workers_rule }
    ensures local { result.global ≡ false }
{
    number_option(alloc, NumberOption::Workers)
        .default_value("1")
        .help("Number of threads, 1 to 64; no answer but the log depends on it")
}
