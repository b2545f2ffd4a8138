//! What the commands take, as `clap` is told.

ghost use Rattle.std.specs.Prelude.{◌≡◌, IfOk, false};
ghost use Rattle.clap.specs.Words.{app_of};
ghost use Rattle.clap.specs.declared.builder.command.Command.TheViews.{out-Command as fields_of};
ghost use Rattle.kb_commands.specs.Elements.{command_app};
ghost use Rattle.kb_commands.specs.declared.elements.name.Name.TheVariants as names;

use super::name::Name;
use crate::arguments::{NumberOption, length_argument, number_option, presentation_argument};
use crate::label::labelled;
use crate::limits::with_limits;
use clap::Command;
use std::alloc::{AllocError, Global};

/// The definition of a command.
pub(super) fn definition<'a>(alloc: Global, name: Name) -> Result<Command<'a>, AllocError>
    ensures app { IfOk result (λ command. app_of command ≡ command_app name) }
    ensures local { IfOk result (λ command. (fields_of command).has_globals ≡ false) }
{
    match name {
        Name::Ball => ball_definition(alloc),
        Name::Kbcos => kbcos_definition(alloc),
    }
}

/// `ball FILE R`.
fn ball_definition<'a>(alloc: Global) -> Result<Command<'a>, AllocError>
    ensures app { IfOk result (λ command. app_of command ≡ command_app names.Ball) }
    ensures local { IfOk result (λ command. (fields_of command).has_globals ≡ false) }
{
    with_limits(
        alloc,
        labelled(alloc, Name::Ball.label())
            .arg(presentation_argument(alloc))?
            .arg(length_argument(
                alloc,
                "radius",
                "R",
                "The greatest length of the words, 0 to 65535",
            ))?,
    )
}

/// `kbcos FILE`.
fn kbcos_definition<'a>(alloc: Global) -> Result<Command<'a>, AllocError>
    ensures app { IfOk result (λ command. app_of command ≡ command_app names.Kbcos) }
    ensures local { IfOk result (λ command. (fields_of command).has_globals ≡ false) }
{
    labelled(alloc, Name::Kbcos.label())
        .arg(presentation_argument(alloc))?
        .arg(number_option(alloc, NumberOption::Workers))?
        .arg(number_option(alloc, NumberOption::MaxRules))?
        .arg(number_option(alloc, NumberOption::MaxLen))
}
