//! What the commands take, as `clap` is told.

ghost use Rattle.std.specs.Prelude.{◌≡◌, IfOk, codes, false};
ghost use Rattle.clap.specs.Words.{app_of, rule_of};
ghost use Rattle.clap.specs.declared.builder.command.Command.TheViews.{out-Command as fields_of};
ghost use Rattle.kb_commands.specs.Arguments.{needed_rule};
ghost use Rattle.kb_commands.specs.Automata.{command_app};
ghost use Rattle.kb_commands.specs.declared.automata.name.Name.TheVariants as names;

use super::name::{Name, Unlimited};
use crate::arguments::{
    NumberOption, length_argument, lengths_option, needed_argument, number_option,
};
use crate::label::labelled;
use clap::{Arg, Command};
use kb_cmd_automata::{Combination, Transformation};
use std::alloc::{AllocError, Global};

/// The definition of a command.
pub(super) fn definition<'a>(alloc: Global, name: Name) -> Result<Command<'a>, AllocError>
    ensures app { IfOk result (λ command. app_of command ≡ command_app name) }
    ensures local { IfOk result (λ command. (fields_of command).has_globals ≡ false) }
{
    match name {
        Name::Combine(operation) => combine_definition(alloc, operation),
        Name::Transform(operation) => transform_definition(alloc, operation),
        Name::Unlimited(command) => unlimited_definition(alloc, command),
        Name::Compare => compare_definition(alloc),
        Name::Enumerate => enumerate_definition(alloc),
        Name::CountAccepted => count_definition(alloc),
    }
}

/// `fsaand A B OUT`, `fsaor A B OUT` and `fsaconcat A B OUT`.
fn combine_definition<'a>(alloc: Global, operation: Combination) -> Result<Command<'a>, AllocError>
    ensures app { IfOk result (λ command. app_of command ≡ command_app (names.Combine operation)) }
    ensures local { IfOk result (λ command. (fields_of command).has_globals ≡ false) }
{
    labelled(alloc, Name::Combine(operation).label())
        .arg(first_argument(alloc))?
        .arg(second_argument(alloc))?
        .arg(out_argument(alloc))?
        .arg(number_option(alloc, NumberOption::MaxStates))
}

/// `fsanot A OUT`, `fsaexists A OUT`, `fsastar A OUT` and `fsareverse A OUT`.
fn transform_definition<'a>(
    alloc: Global,
    operation: Transformation,
) -> Result<Command<'a>, AllocError>
    ensures app { IfOk result
        (λ command. app_of command ≡ command_app (names.Transform operation)) }
    ensures local { IfOk result (λ command. (fields_of command).has_globals ≡ false) }
{
    labelled(alloc, Name::Transform(operation).label())
        .arg(first_argument(alloc))?
        .arg(out_argument(alloc))?
        .arg(number_option(alloc, NumberOption::MaxStates))
}

/// `fsamin A OUT`, and those that take the same.
fn unlimited_definition<'a>(alloc: Global, command: Unlimited) -> Result<Command<'a>, AllocError>
    ensures app { IfOk result (λ added. app_of added ≡ command_app (names.Unlimited command)) }
    ensures local { IfOk result (λ added. (fields_of added).has_globals ≡ false) }
{
    labelled(alloc, Name::Unlimited(command).label())
        .arg(first_argument(alloc))?
        .arg(out_argument(alloc))
}

/// `fsalequal A B`.
fn compare_definition<'a>(alloc: Global) -> Result<Command<'a>, AllocError>
    ensures app { IfOk result (λ command. app_of command ≡ command_app names.Compare) }
    ensures local { IfOk result (λ command. (fields_of command).has_globals ≡ false) }
{
    labelled(alloc, Name::Compare.label())
        .arg(first_argument(alloc))?
        .arg(second_argument(alloc))?
        .arg(number_option(alloc, NumberOption::MaxStates))
}

/// `fsaenumerate MIN MAX A`.
fn enumerate_definition<'a>(alloc: Global) -> Result<Command<'a>, AllocError>
    ensures app { IfOk result (λ command. app_of command ≡ command_app names.Enumerate) }
    ensures local { IfOk result (λ command. (fields_of command).has_globals ≡ false) }
{
    labelled(alloc, Name::Enumerate.label())
        .arg(length_argument(alloc, "min", "MIN", "The least length, 0 to 65535"))?
        .arg(length_argument(alloc, "max", "MAX", "The greatest length, 0 to 65535"))?
        .arg(first_argument(alloc))
}

/// `fsacount A`.
fn count_definition<'a>(alloc: Global) -> Result<Command<'a>, AllocError>
    ensures app { IfOk result (λ command. app_of command ≡ command_app names.CountAccepted) }
    ensures local { IfOk result (λ command. (fields_of command).has_globals ≡ false) }
{
    labelled(alloc, Name::CountAccepted.label())
        .arg(first_argument(alloc))?
        .arg(lengths_option(alloc))
}

/// The argument that names the file of an automaton, the first where there are two.
fn first_argument<'a>(alloc: Global) -> Arg<'a>
    ensures rule { rule_of result ≡ needed_rule (codes "first") }
    ensures local { result.global ≡ false }
{
    needed_argument(alloc, "first", "A", "The file of an automaton")
}

/// The argument that names the file of a second automaton.
fn second_argument<'a>(alloc: Global) -> Arg<'a>
    ensures rule { rule_of result ≡ needed_rule (codes "second") }
    ensures local { result.global ≡ false }
{
    needed_argument(
        alloc,
        "second",
        "B",
        "The file of an automaton over the same alphabet",
    )
}

/// The argument that names the file in which an automaton is stored.
fn out_argument<'a>(alloc: Global) -> Arg<'a>
    ensures rule { rule_of result ≡ needed_rule (codes "out") }
    ensures local { result.global ≡ false }
{
    needed_argument(
        alloc,
        "out",
        "OUT",
        "The file in which the automaton is stored",
    )
}
