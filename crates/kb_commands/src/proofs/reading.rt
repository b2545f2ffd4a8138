//! Commands from their arguments and options.

ghost use Rattle.std.specs.Prelude.{IfOk};
ghost use Rattle.clap.specs.Words.{found_of, rows_of};
ghost use Rattle.kb_commands.specs.Proofs.{IsRead};
ghost use Rattle.kb_commands.specs.declared.proofs.name.Name.TheVariants as names;

use super::name::Name;
use crate::arguments::{NumberOption, option_given, text_given};
use crate::limits::limits_given;
use clap::ArgMatches;
use kb_cmd_proofs::{Kbcertify, Kbverify, ProofsTask};
use kb_word::{Memory, OwnedText};
use std::alloc::Global;

/// The command of the name that the matches give.
pub(super) fn task_given(
    alloc: Global,
    name: Name,
    matches: &ArgMatches<'_>,
) -> Result<Option<ProofsTask>, Memory>
    ensures { IfOk result (IsRead name (rows_of (found_of matches.now))) }
{
    match name {
        Name::Kbverify => kbverify_given(alloc, matches),
        Name::Kbcertify => kbcertify_given(alloc, matches),
    }
}

/// The command that the matches of `kbverify` give.
fn kbverify_given(alloc: Global, matches: &ArgMatches<'_>) -> Result<Option<ProofsTask>, Memory>
    ensures { IfOk result (IsRead names.Kbverify (rows_of (found_of matches.now))) }
{
    let Some(file) = text_given(matches, "file") else {
        return Ok(None);
    };
    Ok(Some(ProofsTask::Kbverify(Kbverify {
        file: OwnedText::from_str(alloc, file)?,
    })))
}

/// The command that the matches of `kbcertify` give.
fn kbcertify_given(alloc: Global, matches: &ArgMatches<'_>) -> Result<Option<ProofsTask>, Memory>
    ensures { IfOk result (IsRead names.Kbcertify (rows_of (found_of matches.now))) }
{
    let Some(file) = text_given(matches, "file") else {
        return Ok(None);
    };
    let Some(workers) = option_given(matches, NumberOption::Workers) else {
        return Ok(None);
    };
    let Some(limits) = limits_given(matches) else {
        return Ok(None);
    };
    Ok(Some(ProofsTask::Kbcertify(Kbcertify {
        file: OwnedText::from_str(alloc, file)?,
        workers,
        limits,
    })))
}
