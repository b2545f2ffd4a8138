//! Words that are passed: each is there, and nothing is kept of it.
//!
//! The clauses `shorter` are for the end of the recursion alone: what is passed takes tokens.

ghost use Rattle.std.specs.Prelude.{◌≡◌, ◌≤◌, length, OnOk};
ghost use Rattle.kb_record.specs.Reading.{remaining, whole_of, read_word, read_group, read_factor};
ghost use Rattle.kb_record.specs.Evaluation.{Passes};

use crate::cursor::{Cursor, Mark, Stop};
use crate::words::power;
use kb_lexing::Expected;

/// Passes factors joined by `*`, with brackets in brackets at most `depth` deep.
#[cycle(passing)]
pub(crate) fn pass_word(tokens: &mut Cursor<'_>, depth: usize) -> Result<(), Stop>
    ensures reads { Passes (read_word depth (remaining tokens.old)) result (remaining tokens.new) }
    ensures shorter { OnOk result (length (remaining tokens.new) ≤ length (remaining tokens.old)) }
    ensures whole { OnOk result (whole_of tokens.new ≡ whole_of tokens.old) }
{
    loop {
        pass_factor(tokens, depth)?;
        if !tokens.take(Mark::Star) {
            return Ok(());
        }
    }
}

/// Passes a name or a group, and its power.
#[cycle(passing)]
fn pass_factor(tokens: &mut Cursor<'_>, depth: usize) -> Result<(), Stop>
    ensures reads { Passes (read_factor depth (remaining tokens.old)) result (remaining tokens.new) }
    ensures shorter { OnOk result (length (remaining tokens.new) ≤ length (remaining tokens.old)) }
    ensures whole { OnOk result (whole_of tokens.new ≡ whole_of tokens.old) }
{
    if tokens.take(Mark::OpenRound) {
        pass_group(tokens, depth)?;
        power(tokens)?;
        return Ok(());
    }
    tokens.name()?;
    power(tokens)?;
    Ok(())
}

/// Passes the word behind an open bracket, and the closing bracket.
#[cycle(passing)]
fn pass_group(tokens: &mut Cursor<'_>, depth: usize) -> Result<(), Stop>
    ensures reads { Passes (read_group depth (remaining tokens.old)) result (remaining tokens.new) }
    ensures shorter { OnOk result (length (remaining tokens.new) ≤ length (remaining tokens.old)) }
    ensures whole { OnOk result (whole_of tokens.new ≡ whole_of tokens.old) }
{
    if depth == 0 {
        return Err(Stop::TooDeep);
    }
    pass_word(tokens, depth - 1)?;
    tokens.expect(Mark::CloseRound, Expected::Mark)
}
