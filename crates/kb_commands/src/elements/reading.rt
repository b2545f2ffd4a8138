//! Commands from their arguments and options.

ghost use Rattle.std.specs.Prelude.{IfOk};
ghost use Rattle.clap.specs.Words.{found_of, rows_of};
ghost use Rattle.kb_commands.specs.Elements.{IsRead};
ghost use Rattle.kb_commands.specs.declared.elements.name.Name.TheVariants as names;

use super::name::Name;
use crate::arguments::{NumberOption, length_given, option_given, text_given};
use crate::limits::limits_given;
use clap::ArgMatches;
use kb_book::Limits;
use kb_cmd_elements::{Ball, ElementsTask, Kbcos};
use kb_word::{Memory, OwnedText};
use std::alloc::Global;

/// `kbcos` keeps no word differences, so this limit of theirs is never reached.
const MOST_DIFFERENCES: u32 = 65_535;

/// It makes no word acceptor, so this limit of its states is never reached.
const MOST_STATES: u32 = 1;

/// The command of the name that the matches give.
pub(super) fn task_given(
    alloc: Global,
    name: Name,
    matches: &ArgMatches<'_>,
) -> Result<Option<ElementsTask>, Memory>
    ensures { IfOk result (IsRead name (rows_of (found_of matches.now))) }
{
    match name {
        Name::Ball => ball_given(alloc, matches),
        Name::Kbcos => kbcos_given(alloc, matches),
    }
}

/// The command that the matches of `ball` give.
fn ball_given(alloc: Global, matches: &ArgMatches<'_>) -> Result<Option<ElementsTask>, Memory>
    ensures { IfOk result (IsRead names.Ball (rows_of (found_of matches.now))) }
{
    let Some(file) = text_given(matches, "file") else {
        return Ok(None);
    };
    let Some(radius) = length_given(matches, "radius") else {
        return Ok(None);
    };
    let Some(workers) = option_given(matches, NumberOption::Workers) else {
        return Ok(None);
    };
    let Some(limits) = limits_given(matches) else {
        return Ok(None);
    };
    Ok(Some(ElementsTask::Ball(Ball {
        file: OwnedText::from_str(alloc, file)?,
        radius,
        workers,
        limits,
    })))
}

/// The command that the matches of `kbcos` give.
fn kbcos_given(alloc: Global, matches: &ArgMatches<'_>) -> Result<Option<ElementsTask>, Memory>
    ensures { IfOk result (IsRead names.Kbcos (rows_of (found_of matches.now))) }
{
    let Some(file) = text_given(matches, "file") else {
        return Ok(None);
    };
    let Some(workers) = option_given(matches, NumberOption::Workers) else {
        return Ok(None);
    };
    let Some(lines) = option_given(matches, NumberOption::MaxRules) else {
        return Ok(None);
    };
    let Some(letters) = option_given(matches, NumberOption::MaxLen) else {
        return Ok(None);
    };
    Ok(Some(ElementsTask::Kbcos(Kbcos {
        file: OwnedText::from_str(alloc, file)?,
        workers,
        limits: Limits::new(lines, letters, MOST_DIFFERENCES, MOST_STATES),
    })))
}
