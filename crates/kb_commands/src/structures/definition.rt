//! What the commands take, as `clap` is told.

ghost use Rattle.std.specs.Prelude.{◌≡◌, IfOk, codes, false};
ghost use Rattle.clap.specs.Words.{app_of, rule_of};
ghost use Rattle.clap.specs.declared.builder.command.Command.TheViews.{out-Command as fields_of};
ghost use Rattle.kb_commands.specs.Arguments.{flag_rule, needed_rule};
ghost use Rattle.kb_commands.specs.Structures.{command_app};
ghost use Rattle.kb_commands.specs.declared.structures.name.Name.TheVariants as names;

use super::name::Name;
use crate::arguments::{NumberOption, flag_option, needed_argument, number_option};
use crate::label::labelled;
use crate::limits::{with_all_limits, with_limits};
use clap::{Arg, Command};
use std::alloc::{AllocError, Global};

/// The definition of a command.
pub(super) fn definition<'a>(alloc: Global, name: Name) -> Result<Command<'a>, AllocError>
    ensures app { IfOk result (λ command. app_of command ≡ command_app name) }
    ensures local { IfOk result (λ command. (fields_of command).has_globals ≡ false) }
{
    match name {
        Name::Autgroup => autgroup_definition(alloc),
        Name::Gpaxioms => gpaxioms_definition(alloc),
        Name::Gpminkb => gpminkb_definition(alloc),
    }
}

/// `autgroup FILE`.
fn autgroup_definition<'a>(alloc: Global) -> Result<Command<'a>, AllocError>
    ensures app { IfOk result (λ command. app_of command ≡ command_app names.Autgroup) }
    ensures local { IfOk result (λ command. (fields_of command).has_globals ≡ false) }
{
    with_all_limits(
        alloc,
        labelled(alloc, Name::Autgroup.label()).arg(file_argument(alloc))?,
    )?
    .arg(number_option(alloc, NumberOption::Batch))
}

/// `gpaxioms FILE`, and whether the log decides.
fn gpaxioms_definition<'a>(alloc: Global) -> Result<Command<'a>, AllocError>
    ensures app { IfOk result (λ command. app_of command ≡ command_app names.Gpaxioms) }
    ensures local { IfOk result (λ command. (fields_of command).has_globals ≡ false) }
{
    with_limits(
        alloc,
        labelled(alloc, Name::Gpaxioms.label()).arg(file_argument(alloc))?,
    )?
    .arg(log_option(alloc))
}

/// `gpminkb FILE`.
fn gpminkb_definition<'a>(alloc: Global) -> Result<Command<'a>, AllocError>
    ensures app { IfOk result (λ command. app_of command ≡ command_app names.Gpminkb) }
    ensures local { IfOk result (λ command. (fields_of command).has_globals ≡ false) }
{
    with_limits(
        alloc,
        labelled(alloc, Name::Gpminkb.label()).arg(file_argument(alloc))?,
    )
}

/// The argument that names the file of a group.
fn file_argument<'a>(alloc: Global) -> Arg<'a>
    ensures rule { rule_of result ≡ needed_rule (codes "file") }
    ensures local { result.global ≡ false }
{
    needed_argument(
        alloc,
        "file",
        "FILE",
        "A presentation file (GAP record) of a group by shortlex",
    )
}

/// The option by which the lines of the log decide.
fn log_option<'a>(alloc: Global) -> Arg<'a>
    ensures rule { rule_of result ≡ flag_rule (codes "log") }
    ensures local { result.global ≡ false }
{
    flag_option(
        alloc,
        "log",
        "Checks FILE.kblog, and decides by its lines in place of a completion",
    )
}
