//! Commands from their arguments and options.

ghost use Rattle.std.specs.Prelude.{◌≡◌, List, IfOk};
ghost use Rattle.clap.specs.Words.{Row, found_of, rows_of};
ghost use Rattle.kb_commands.specs.Automata.{GivesFiles, GivesTask, IsRead, name_of_task};
ghost use Rattle.kb_commands.specs.declared.automata.name.Name.TheVariants as names;

use super::name::{Name, Unlimited};
use crate::arguments::{NumberOption, length_given, lengths_given, option_given, text_given};
use clap::ArgMatches;
use kb_cmd_automata::{
    AutomataTask, Combination, Combine, Compare, CountAccepted, Enumerate, FileToOut, Minimise,
    Transform, Transformation,
};
use kb_word::{Memory, OwnedText};
use std::alloc::Global;

/// The command of the name that the matches give.
pub(super) fn task_given(
    alloc: Global,
    name: Name,
    matches: &ArgMatches<'_>,
) -> Result<Option<AutomataTask>, Memory>
    ensures { IfOk result (IsRead name (rows_of (found_of matches.now))) }
{
    match name {
        Name::Combine(operation) => combine_given(alloc, operation, matches),
        Name::Transform(operation) => transform_given(alloc, operation, matches),
        Name::Unlimited(command) => unlimited_given(alloc, command, matches),
        Name::Compare => compare_given(alloc, matches),
        Name::Enumerate => enumerate_given(alloc, matches),
        Name::CountAccepted => count_given(alloc, matches),
    }
}

/// The command that the matches of `fsaand`, `fsaor` or `fsaconcat` give.
fn combine_given(
    alloc: Global,
    operation: Combination,
    matches: &ArgMatches<'_>,
) -> Result<Option<AutomataTask>, Memory>
    ensures { IfOk result (IsRead (names.Combine operation) (rows_of (found_of matches.now))) }
{
    let Some(one) = text_given(matches, "first") else {
        return Ok(None);
    };
    let Some(two) = text_given(matches, "second") else {
        return Ok(None);
    };
    let Some(out) = text_given(matches, "out") else {
        return Ok(None);
    };
    let Some(max_states) = option_given(matches, NumberOption::MaxStates) else {
        return Ok(None);
    };
    Ok(Some(AutomataTask::Combine(Combine {
        operation,
        one: OwnedText::from_str(alloc, one)?,
        two: OwnedText::from_str(alloc, two)?,
        out: OwnedText::from_str(alloc, out)?,
        max_states,
    })))
}

/// The command that the matches of `fsanot`, `fsaexists`, `fsastar` or `fsareverse` give.
fn transform_given(
    alloc: Global,
    operation: Transformation,
    matches: &ArgMatches<'_>,
) -> Result<Option<AutomataTask>, Memory>
    ensures { IfOk result (IsRead (names.Transform operation) (rows_of (found_of matches.now))) }
{
    let Some(file) = text_given(matches, "first") else {
        return Ok(None);
    };
    let Some(out) = text_given(matches, "out") else {
        return Ok(None);
    };
    let Some(max_states) = option_given(matches, NumberOption::MaxStates) else {
        return Ok(None);
    };
    Ok(Some(AutomataTask::Transform(Transform {
        operation,
        file: OwnedText::from_str(alloc, file)?,
        out: OwnedText::from_str(alloc, out)?,
        max_states,
    })))
}

/// The command that the matches of one that takes A and OUT alone give.
fn unlimited_given(
    alloc: Global,
    command: Unlimited,
    matches: &ArgMatches<'_>,
) -> Result<Option<AutomataTask>, Memory>
    ensures { IfOk result (IsRead (names.Unlimited command) (rows_of (found_of matches.now))) }
{
    let Some(file) = text_given(matches, "first") else {
        return Ok(None);
    };
    let Some(out) = text_given(matches, "out") else {
        return Ok(None);
    };
    let files = FileToOut {
        file: OwnedText::from_str(alloc, file)?,
        out: OwnedText::from_str(alloc, out)?,
    };
    Ok(Some(unlimited_task(command, files)))
}

/// The command on these files.
fn unlimited_task(command: Unlimited, files: FileToOut) -> AutomataTask
    ensures name { name_of_task result ≡ names.Unlimited command }
    ensures files { (rows : List Row) → GivesFiles rows files → GivesTask result rows }
{
    match command {
        Unlimited::Minimise => AutomataTask::Minimise(Minimise { files }),
    }
}

/// The command that the matches of `fsalequal` give.
fn compare_given(alloc: Global, matches: &ArgMatches<'_>) -> Result<Option<AutomataTask>, Memory>
    ensures { IfOk result (IsRead names.Compare (rows_of (found_of matches.now))) }
{
    let Some(one) = text_given(matches, "first") else {
        return Ok(None);
    };
    let Some(two) = text_given(matches, "second") else {
        return Ok(None);
    };
    let Some(max_states) = option_given(matches, NumberOption::MaxStates) else {
        return Ok(None);
    };
    Ok(Some(AutomataTask::Compare(Compare {
        one: OwnedText::from_str(alloc, one)?,
        two: OwnedText::from_str(alloc, two)?,
        max_states,
    })))
}

/// The command that the matches of `fsaenumerate` give.
fn enumerate_given(alloc: Global, matches: &ArgMatches<'_>) -> Result<Option<AutomataTask>, Memory>
    ensures { IfOk result (IsRead names.Enumerate (rows_of (found_of matches.now))) }
{
    let Some(min) = length_given(matches, "min") else {
        return Ok(None);
    };
    let Some(max) = length_given(matches, "max") else {
        return Ok(None);
    };
    let Some(file) = text_given(matches, "first") else {
        return Ok(None);
    };
    Ok(Some(AutomataTask::Enumerate(Enumerate {
        min,
        max,
        file: OwnedText::from_str(alloc, file)?,
    })))
}

/// The command that the matches of `fsacount` give.
fn count_given(alloc: Global, matches: &ArgMatches<'_>) -> Result<Option<AutomataTask>, Memory>
    ensures { IfOk result (IsRead names.CountAccepted (rows_of (found_of matches.now))) }
{
    let Some(file) = text_given(matches, "first") else {
        return Ok(None);
    };
    let Some(lengths) = lengths_given(matches) else {
        return Ok(None);
    };
    Ok(Some(AutomataTask::CountAccepted(CountAccepted {
        file: OwnedText::from_str(alloc, file)?,
        lengths,
    })))
}
