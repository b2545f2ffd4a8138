//! Commands from their arguments and options.

ghost use Rattle.std.specs.Prelude.{◌≡◌, IfOk, IfSome, None};
ghost use Rattle.clap.specs.Words.{found_of, rows_of};
ghost use Rattle.kb_commands.specs.Structures.{IsRead};
ghost use Rattle.kb_commands.specs.declared.structures.name.Name.TheVariants as names;

use super::name::Name;
use crate::arguments::{NumberOption, flag_given, option_given, text_given};
use crate::limits::{all_limits_given, limits_given};
use clap::ArgMatches;
use kb_cmd_structures::{Autgroup, AutomataCheck, Gpaxioms, Gpminkb, StructuresTask};
use kb_word::{Memory, OwnedText};
use std::alloc::Global;

/// The command of the name that the matches give.
pub(super) fn task_given(
    alloc: Global,
    name: Name,
    matches: &ArgMatches<'_>,
) -> Result<Option<StructuresTask>, Memory>
    ensures { IfOk result (IsRead name (rows_of (found_of matches.now))) }
{
    match name {
        Name::Autgroup => autgroup_given(alloc, matches),
        Name::Gpaxioms => gpaxioms_given(alloc, matches),
        Name::Gpminkb => gpminkb_given(alloc, matches),
    }
}

/// The command that the matches of `autgroup` give.
fn autgroup_given(alloc: Global, matches: &ArgMatches<'_>) -> Result<Option<StructuresTask>, Memory>
    ensures { IfOk result (IsRead names.Autgroup (rows_of (found_of matches.now))) }
{
    let Some(file) = text_given(matches, "file") else {
        return Ok(None);
    };
    let Some(workers) = option_given(matches, NumberOption::Workers) else {
        return Ok(None);
    };
    let Some(limits) = all_limits_given(matches) else {
        return Ok(None);
    };
    let Some(batch) = option_given(matches, NumberOption::Batch) else {
        return Ok(None);
    };
    Ok(Some(StructuresTask::Autgroup(Autgroup {
        file: OwnedText::from_str(alloc, file)?,
        workers,
        limits,
        batch,
    })))
}

/// The command that the matches of `gpaxioms` give.
fn gpaxioms_given(alloc: Global, matches: &ArgMatches<'_>) -> Result<Option<StructuresTask>, Memory>
    ensures { IfOk result (IsRead names.Gpaxioms (rows_of (found_of matches.now))) }
{
    let Some(file) = text_given(matches, "file") else {
        return Ok(None);
    };
    let Some(workers) = option_given(matches, NumberOption::Workers) else {
        return Ok(None);
    };
    let Some(limits) = limits_given(matches) else {
        return Ok(None);
    };
    let check = AutomataCheck {
        file: OwnedText::from_str(alloc, file)?,
        workers,
        limits,
    };
    let by_log = flag_given(matches, "log");
    Ok(Some(StructuresTask::Gpaxioms(Gpaxioms { check, by_log })))
}

/// The command that the matches of `gpminkb` give.
fn gpminkb_given(alloc: Global, matches: &ArgMatches<'_>) -> Result<Option<StructuresTask>, Memory>
    ensures { IfOk result (IsRead names.Gpminkb (rows_of (found_of matches.now))) }
{
    let Some(file) = text_given(matches, "file") else {
        return Ok(None);
    };
    let Some(workers) = option_given(matches, NumberOption::Workers) else {
        return Ok(None);
    };
    let Some(limits) = limits_given(matches) else {
        return Ok(None);
    };
    let check = AutomataCheck {
        file: OwnedText::from_str(alloc, file)?,
        workers,
        limits,
    };
    Ok(Some(StructuresTask::Gpminkb(Gpminkb { check })))
}
