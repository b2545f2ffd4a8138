//! Commands from their arguments and options.

ghost use Rattle.std.specs.Prelude.{◌≡◌, ℕ, IfOk, IfSome, None, codes};
ghost use Rattle.clap.specs.Words.{found_of, rows_of};
ghost use Rattle.kb_commands.specs.Arguments.{GivesNumber};
ghost use Rattle.kb_commands.specs.Completion.{IsRead};
ghost use Rattle.kb_commands.specs.declared.completion.name.Name.TheVariants as names;

use super::name::Name;
use crate::arguments::{NumberOption, number_given, option_given, text_given};
use crate::limits::limits_given;
use clap::ArgMatches;
use kb_cmd_completion::{CompletionTask, Kbprog, Logread, SelfTest};
use kb_word::{Memory, OwnedText};
use std::alloc::Global;

/// The command of the name that the matches give.
pub(super) fn task_given(
    alloc: Global,
    name: Name,
    matches: &ArgMatches<'_>,
) -> Result<Option<CompletionTask>, Memory>
    ensures { IfOk result (IsRead name (rows_of (found_of matches.now))) }
{
    match name {
        Name::Kbprog => kbprog_given(alloc, matches),
        Name::Logread => logread_given(alloc, matches),
        Name::SelfTest => Ok(selftest_given(matches)),
    }
}

/// The command that the matches of `kbprog` give.
fn kbprog_given(alloc: Global, matches: &ArgMatches<'_>) -> Result<Option<CompletionTask>, Memory>
    ensures { IfOk result (IsRead names.Kbprog (rows_of (found_of matches.now))) }
{
    let Some(file) = text_given(matches, "file") else {
        return Ok(None);
    };
    let Some(workers) = option_given(matches, NumberOption::Workers) else {
        return Ok(None);
    };
    let Some(limits) = limits_given(matches) else {
        return Ok(None);
    };
    let Some(batch) = option_given(matches, NumberOption::Batch) else {
        return Ok(None);
    };
    Ok(Some(CompletionTask::Kbprog(Kbprog {
        file: OwnedText::from_str(alloc, file)?,
        workers,
        limits,
        batch,
    })))
}

/// The command that the matches of `logread` give.
fn logread_given(alloc: Global, matches: &ArgMatches<'_>) -> Result<Option<CompletionTask>, Memory>
    ensures { IfOk result (IsRead names.Logread (rows_of (found_of matches.now))) }
{
    let Some(file) = text_given(matches, "file") else {
        return Ok(None);
    };
    Ok(Some(CompletionTask::Logread(Logread {
        file: OwnedText::from_str(alloc, file)?,
    })))
}

/// The command that the matches of `selftest` give.
fn selftest_given(matches: &ArgMatches<'_>) -> Option<CompletionTask>
    ensures { IsRead names.SelfTest (rows_of (found_of matches.now)) result }
{
    let rank = rank_given(matches)?;
    let workers = option_given(matches, NumberOption::Workers)?;
    let limits = limits_given(matches)?;
    Some(CompletionTask::SelfTest(SelfTest {
        rank,
        workers,
        limits,
    }))
}

/// The rank of a group that the matches give.
fn rank_given(matches: &ArgMatches<'_>) -> Option<u16>
    ensures some { IfSome result
        (λ rank. GivesNumber (rows_of (found_of matches.now)) (codes "rank") 1 40 rank) }
    ensures none { result ≡ None → (rank : ℕ)
        → ¬ GivesNumber (rows_of (found_of matches.now)) (codes "rank") 1 40 rank }
{
    let rank = number_given(matches, "rank", 1, 40)?;
    u16::try_from(rank).ok()
}
