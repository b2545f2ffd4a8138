//! Limits from options.

ghost use Rattle.std.specs.Prelude.{◌≡◌, ℕ, IfSome, None};
ghost use Rattle.clap.specs.Words.{found_of, rows_of};
ghost use Rattle.kb_system.specs.Evidence.{Limits as LimitsGiven};
ghost use Rattle.kb_system.specs.Problems.{limits_of};
ghost use Rattle.kb_commands.specs.Limits.{GivesAllLimits, GivesLimits};

use crate::arguments::{NumberOption, option_given};
use clap::ArgMatches;
use kb_book::Limits;

/// A command that doesn't take the option of word differences keeps none, so this limit of theirs is never reached.
const MOST_DIFFERENCES: u32 = 65_535;

/// The limits of a completion that the matches give.
pub fn limits_given(matches: &ArgMatches<'_>) -> Option<Limits>
    ensures some { IfSome result
        (λ limits. GivesLimits (rows_of (found_of matches.now)) (limits_of limits)) }
    ensures none { result ≡ None → (limits : LimitsGiven)
        → ¬ GivesLimits (rows_of (found_of matches.now)) limits }
{
    let lines = option_given(matches, NumberOption::MaxRules)?;
    let letters = option_given(matches, NumberOption::MaxLen)?;
    let states = option_given(matches, NumberOption::MaxStates)?;
    Some(Limits::new(lines, letters, MOST_DIFFERENCES, states))
}

/// The limits of a completion and of word differences that the matches give.
pub fn all_limits_given(matches: &ArgMatches<'_>) -> Option<Limits>
    ensures some { IfSome result (λ limits. GivesAllLimits (rows_of (found_of matches.now))
        (limits_of limits) limits.diffs) }
    ensures none { result ≡ None → (limits : LimitsGiven) (most : ℕ)
        → ¬ GivesAllLimits (rows_of (found_of matches.now)) limits most }
{
    let limits = limits_given(matches)?;
    let most = option_given(matches, NumberOption::MaxDiffs)?;
    Some(Limits::new(limits.rules, limits.len, most, limits.states))
}
