//! What the commands take, as `clap` is told.

ghost use Rattle.std.specs.Prelude.{◌≡◌, IfOk, false};
ghost use Rattle.clap.specs.Words.{app_of, rule_of};
ghost use Rattle.clap.specs.declared.builder.command.Command.TheViews.{out-Command as fields_of};
ghost use Rattle.kb_commands.specs.Completion.{command_app, rank_rule};
ghost use Rattle.kb_commands.specs.declared.completion.name.Name.TheVariants as names;

use super::name::Name;
use crate::arguments::{NumberOption, needed_argument, number_option, presentation_argument};
use crate::label::labelled;
use crate::limits::with_limits;
use clap::{Arg, Command, value_parser};
use std::alloc::{AllocError, Global};

/// The place of `selftest` in the program's list of commands: behind those of all families.
const SELFTEST_PLACE: usize = 900;

/// The definition of a command.
pub(super) fn definition<'a>(alloc: Global, name: Name) -> Result<Command<'a>, AllocError>
    ensures app { IfOk result (λ command. app_of command ≡ command_app name) }
    ensures local { IfOk result (λ command. (fields_of command).has_globals ≡ false) }
{
    match name {
        Name::Kbprog => kbprog_definition(alloc),
        Name::Logread => logread_definition(alloc),
        Name::SelfTest => selftest_definition(alloc),
    }
}

/// `kbprog FILE`.
fn kbprog_definition<'a>(alloc: Global) -> Result<Command<'a>, AllocError>
    ensures app { IfOk result (λ command. app_of command ≡ command_app names.Kbprog) }
    ensures local { IfOk result (λ command. (fields_of command).has_globals ≡ false) }
{
    with_limits(
        alloc,
        labelled(alloc, Name::Kbprog.label()).arg(presentation_argument(alloc))?,
    )?
    .arg(number_option(alloc, NumberOption::Batch))
}

/// `logread FILE`.
fn logread_definition<'a>(alloc: Global) -> Result<Command<'a>, AllocError>
    ensures app { IfOk result (λ command. app_of command ≡ command_app names.Logread) }
    ensures local { IfOk result (λ command. (fields_of command).has_globals ≡ false) }
{
    labelled(alloc, Name::Logread.label()).arg(presentation_argument(alloc))
}

/// `selftest N`.
fn selftest_definition<'a>(alloc: Global) -> Result<Command<'a>, AllocError>
    ensures app { IfOk result (λ command. app_of command ≡ command_app names.SelfTest) }
    ensures local { IfOk result (λ command. (fields_of command).has_globals ≡ false) }
{
    with_limits(
        alloc,
        labelled(alloc, Name::SelfTest.label())
            .display_order(SELFTEST_PLACE)
            .arg(rank_argument(alloc))?,
    )
}

/// The argument that is the rank of a free abelian group.
fn rank_argument<'a>(alloc: Global) -> Arg<'a>
    ensures rule { rule_of result ≡ rank_rule }
    ensures local { result.global ≡ false }
{
    needed_argument(alloc, "rank", "N", "The rank of the group, 1 to 40").value_parser(
        value_parser!(u32).range(1..=40),
    )
}
