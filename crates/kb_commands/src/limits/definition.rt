//! What a command takes, as `clap` is told.

ghost use Rattle.std.specs.Prelude.{◌≡◌, IfOk, false};
ghost use Rattle.clap.specs.Words.{app_of};
ghost use Rattle.clap.specs.declared.builder.command.Command.TheViews.{out-Command as fields_of};
ghost use Rattle.kb_commands.specs.Limits.{with_all_limits, with_limits};

use crate::arguments::{NumberOption, number_option};
use clap::Command;
use std::alloc::{AllocError, Global};

/// A command with the options of a completion added: its workers and its limits.
pub fn with_limits<'a>(alloc: Global, command: Command<'a>) -> Result<Command<'a>, AllocError>
    requires { (fields_of command).has_globals ≡ false }
    ensures app { IfOk result (λ added. app_of added ≡ with_limits (app_of command.entry)) }
    ensures local { IfOk result (λ added. (fields_of added).has_globals ≡ false) }
{
    command
        .arg(number_option(alloc, NumberOption::Workers))?
        .arg(number_option(alloc, NumberOption::MaxRules))?
        .arg(number_option(alloc, NumberOption::MaxLen))?
        .arg(number_option(alloc, NumberOption::MaxStates))
}

/// The same, with the option of how many word differences may be kept.
pub fn with_all_limits<'a>(alloc: Global, command: Command<'a>) -> Result<Command<'a>, AllocError>
    requires { (fields_of command).has_globals ≡ false }
    ensures app { IfOk result (λ added. app_of added ≡ with_all_limits (app_of command.entry)) }
    ensures local { IfOk result (λ added. (fields_of added).has_globals ≡ false) }
{
    with_limits(alloc, command)?.arg(number_option(alloc, NumberOption::MaxDiffs))
}
