//! Words: from tokens to the trees of words.
//!
//! The clauses `shorter` are for the end of the recursion alone: what is read takes tokens.

ghost use Rattle.std.specs.Prelude.{◌≡◌, ◌≤◌, length, map, OnOk};
ghost use Rattle.kb_record.specs.Reading.{Reads, remaining, whole_of, row, passes, read_power, read_factor, read_group, read_word};
ghost use Rattle.kb_record.specs.View.{factor_view, factors_view};

use crate::cursor::{Cursor, Mark, Stop};
use crate::tree::Factor;
use kb_lexing::Expected;
use std::alloc::Global;

/// Reads factors joined by `*`, with brackets in brackets at most `depth` deep.
#[cycle(words)]
pub(crate) fn word<'a>(
    alloc: Global,
    tokens: &mut Cursor<'a>,
    depth: usize,
) -> Result<Vec<Factor<'a>>, Stop>
    ensures reads { Reads (read_word depth (remaining tokens.old))
        (λ factors. factors_view factors.items)
        result (remaining tokens.new) }
    ensures shorter { OnOk result (length (remaining tokens.new) ≤ length (remaining tokens.old)) }
{
    // Most words in a text are one name, and there may be millions of them.
    let mut factors = Vec::with_capacity(alloc, 1)?;
    loop {
        factors.push(factor(alloc, tokens, depth)?)?;
        if !tokens.take(Mark::Star) {
            return Ok(factors);
        }
    }
}

/// Reads a name or a group, and its power.
#[cycle(words)]
fn factor<'a>(alloc: Global, tokens: &mut Cursor<'a>, depth: usize) -> Result<Factor<'a>, Stop>
    ensures reads { Reads (read_factor depth (remaining tokens.old)) factor_view result
        (remaining tokens.new) }
    ensures shorter { OnOk result (length (remaining tokens.new) ≤ length (remaining tokens.old)) }
{
    if tokens.take(Mark::OpenRound) {
        let factors = group(alloc, tokens, depth)?;
        return Ok(Factor::Group(factors, power(tokens)?));
    }
    let name = tokens.name()?;
    Ok(Factor::Name(name, power(tokens)?))
}

/// Reads the word behind an open bracket, and the closing bracket.
#[cycle(words)]
fn group<'a>(alloc: Global, tokens: &mut Cursor<'a>, depth: usize) -> Result<Vec<Factor<'a>>, Stop>
    ensures reads { Reads (read_group depth (remaining tokens.old))
        (λ factors. factors_view factors.items)
        result (remaining tokens.new) }
    ensures shorter { OnOk result (length (remaining tokens.new) ≤ length (remaining tokens.old)) }
{
    if depth == 0 {
        return Err(Stop::TooDeep);
    }
    let factors = word(alloc, tokens, depth - 1)?;
    tokens.expect(Mark::CloseRound, Expected::Mark)?;
    Ok(factors)
}

/// Reads `^` and a number, if there is a power.
pub(crate) fn power(tokens: &mut Cursor<'_>) -> Result<Option<i64>, Stop>
    ensures reads { Reads (read_power (remaining tokens.old)) (λ power. power) result
        (remaining tokens.new) }
    ensures shorter { OnOk result (length (remaining tokens.new) ≤ length (remaining tokens.old)) }
    ensures whole { OnOk result (whole_of tokens.new ≡ whole_of tokens.old) }
{
    if !tokens.take(Mark::Caret) {
        return Ok(None);
    }
    Ok(Some(tokens.number()?))
}
