//! Words of a presentation, evaluated as they are read: no tree is kept, so that a faulty line takes no memory either.
//!
//! Behind its first fault a word is read on, since a fault of the bytes comes before, and nothing is evaluated.

ghost use Rattle.std.specs.Prelude.{◌≡◌, ◌≤◌, ℕ, List, [], Result, Ok, length, OnOk};
ghost use Rattle.kb_record.specs.Meaning.{WordFault, and_then, name_meaning, power_meaning, factor_meaning, product_meaning};
ghost use Rattle.kb_record.specs.Reading.{remaining, read_word, read_group, read_factor};
ghost use Rattle.kb_record.specs.Faults.{Evaluates};
ghost use Rattle.kb_record.specs.Evaluation.{ReadsFor, Evaluated, Follows};

use crate::cursor::{Cursor, Mark, Stop};
use crate::error::WordError;
use crate::meaning::{name_of, power_of, times};
use crate::words::power;
use kb_lexing::Expected;
use kb_word::{Presentation, Word};
use std::alloc::Global;

/// Reads factors joined by `*`, with brackets in brackets at most `depth` deep, and evaluates them, where that is
/// wanted.
#[cycle(evaluation)]
pub(crate) fn product(
    alloc: Global,
    presentation: &Presentation,
    tokens: &mut Cursor<'_>,
    depth: usize,
    wanted: bool,
) -> Result<Result<Word, WordError>, Stop>
    ensures reads { ReadsFor (read_word depth (remaining tokens.old))
        (Evaluated wanted (product_meaning presentation.now.names presentation.now.inv []))
        result (remaining tokens.new) }
    ensures shorter { OnOk result (length (remaining tokens.new) ≤ length (remaining tokens.old)) }
{
    let mut so_far = Ok(Word::new(alloc));
    loop {
        let is_wanted = still_wanted(wanted, &so_far);
        let next = factor(alloc, presentation, tokens, depth, is_wanted)?;
        so_far = product_with(so_far, next);
        if !tokens.take(Mark::Star) {
            return Ok(so_far);
        }
    }
}

/// Reads a name or a group, and its power, and evaluates it, where that is wanted.
#[cycle(evaluation)]
fn factor(
    alloc: Global,
    presentation: &Presentation,
    tokens: &mut Cursor<'_>,
    depth: usize,
    wanted: bool,
) -> Result<Result<Word, WordError>, Stop>
    ensures reads { ReadsFor (read_factor depth (remaining tokens.old))
        (Evaluated wanted (factor_meaning presentation.now.names presentation.now.inv))
        result (remaining tokens.new) }
    ensures shorter { OnOk result (length (remaining tokens.new) ≤ length (remaining tokens.old)) }
{
    if tokens.take(Mark::OpenRound) {
        let inside = group(alloc, presentation, tokens, depth, wanted)?;
        let exponent = power(tokens)?;
        return Ok(raised(alloc, inside, exponent, presentation));
    }
    let name = tokens.name()?;
    let exponent = power(tokens)?;
    let letter = named(alloc, name, presentation, wanted);
    Ok(raised(alloc, letter, exponent, presentation))
}

/// Reads the word behind an open bracket, and the closing bracket, and evaluates it, where that is wanted.
#[cycle(evaluation)]
fn group(
    alloc: Global,
    presentation: &Presentation,
    tokens: &mut Cursor<'_>,
    depth: usize,
    wanted: bool,
) -> Result<Result<Word, WordError>, Stop>
    ensures reads { ReadsFor (read_group depth (remaining tokens.old))
        (Evaluated wanted (product_meaning presentation.now.names presentation.now.inv []))
        result (remaining tokens.new) }
    ensures shorter { OnOk result (length (remaining tokens.new) ≤ length (remaining tokens.old)) }
{
    if depth == 0 {
        return Err(Stop::TooDeep);
    }
    let inside = product(alloc, presentation, tokens, depth - 1, wanted)?;
    tokens.expect(Mark::CloseRound, Expected::Mark)?;
    Ok(inside)
}

/// The word of a name, where that is wanted.
fn named(
    alloc: Global,
    name: &str,
    presentation: &Presentation,
    wanted: bool,
) -> Result<Word, WordError>
    ensures { Evaluated wanted (name_meaning presentation.now.names) name.now result }
{
    if !wanted {
        return Ok(Word::new(alloc));
    }
    name_of(alloc, name, presentation)
}

/// The power of a word, where there was no fault.
fn raised(
    alloc: Global,
    base: Result<Word, WordError>,
    exponent: Option<i64>,
    presentation: &Presentation,
) -> Result<Word, WordError>
    ensures { (meaning : Result (List ℕ) WordFault) → Evaluates meaning base
        → Evaluates (and_then meaning
        (power_meaning presentation.now.names presentation.now.inv exponent)) result }
{
    power_of(alloc, base?, exponent, presentation)
}

/// The product so far and the next factor, or the first fault.
fn product_with(
    so_far: Result<Word, WordError>,
    next: Result<Word, WordError>,
) -> Result<Word, WordError>
    ensures { Follows so_far next result }
{
    times(so_far?, &next?)
}

/// Whether the next factor is to be evaluated: not behind a fault.
fn still_wanted(wanted: bool, so_far: &Result<Word, WordError>) -> bool
    ensures { (w : List ℕ) → so_far.now ≡ Ok w → result ≡ wanted }
{
    wanted && so_far.is_ok()
}
