//! What names, products and powers mean over a presentation.

ghost use Rattle.std.specs.Prelude.{◌≡◌, ℕ, ◌-◌, ◌<◌, Some, negsuc, IfOk};
ghost use Rattle.kb_record.specs.Meaning.{name_meaning, first_without_inverse, repetition, power_meaning, product};
ghost use Rattle.kb_record.specs.Faults.{Evaluates};

use crate::error::WordError;
use kb_word::{Memory, OwnedText, Presentation, Word};
use std::alloc::Global;

/// The most letters that a word may have, and each factor, group and product in it.
const MOST_LETTERS: usize = 65_535;

/// The product so far and the next factor, where that isn't too long.
pub(crate) fn times(mut so_far: Word, next: &Word) -> Result<Word, WordError>
    ensures { Evaluates (product so_far next.now) result }
{
    if so_far.len().saturating_add(next.len()) > MOST_LETTERS {
        return Err(WordError::WordTooLong);
    }
    so_far.append(next)?;
    Ok(so_far)
}

/// The empty word for `IdWord`, and the generator for another name.
pub(crate) fn name_of(
    alloc: Global,
    name: &str,
    presentation: &Presentation,
) -> Result<Word, WordError>
    ensures { Evaluates (name_meaning presentation.now.names name.now) result }
{
    let mut word = Word::new(alloc);
    if name == "IdWord" {
        return Ok(word);
    }
    let Some(letter) = presentation.names.number_of(name) else {
        let name = OwnedText::from_str(alloc, name)?;
        return Err(WordError::UnknownGenerator { name });
    };
    word.push(letter)?;
    Ok(word)
}

/// A word's power; without exponent it is the word.
pub(crate) fn power_of(
    alloc: Global,
    word: Word,
    exponent: Option<i64>,
    presentation: &Presentation,
) -> Result<Word, WordError>
    ensures { Evaluates
        (power_meaning presentation.now.names presentation.now.inv exponent word) result }
{
    match exponent {
        None => Ok(word),
        Some(exponent) if exponent < 0 => negative_power(
            alloc,
            &word,
            exponent.unsigned_abs(),
            presentation,
        ),
        Some(exponent) => repeated(alloc, &word, exponent as u64),
    }
}

/// The inverse of a word, so many times.
fn negative_power(
    alloc: Global,
    word: &Word,
    count: u64,
    presentation: &Presentation,
) -> Result<Word, WordError>
    requires { 0 < count }
    ensures { Evaluates
        (power_meaning presentation.now.names presentation.now.inv (Some (negsuc (count - 1)))
        word.now)
        result }
{
    let Some(inverse) = presentation.inverse_of(alloc, word)? else {
        let name = name_without_inverse(alloc, word, presentation)?;
        return Err(WordError::NoInverse { name });
    };
    repeated(alloc, &inverse, count)
}

/// The name of a word's first letter without inverse.
fn name_without_inverse(
    alloc: Global,
    word: &Word,
    presentation: &Presentation,
) -> Result<OwnedText, Memory>
    ensures { IfOk result
        (λ name. name
        ≡ first_without_inverse presentation.now.names presentation.now.inv word.now) }
{
    for letter in word.letters() {
        if presentation.letter_inverse(*letter).is_none() {
            return OwnedText::from_str(alloc, presentation.names.name_of(*letter).unwrap_or(""));
        }
    }
    OwnedText::from_str(alloc, "")
}

/// The word, so many times, where that isn't too long.
fn repeated(alloc: Global, word: &Word, count: u64) -> Result<Word, WordError>
    ensures { Evaluates (repetition count word.now) result }
{
    let mut power = Word::new(alloc);
    if word.is_empty() {
        return Ok(power);
    }
    if count.saturating_mul(word.len() as u64) > MOST_LETTERS as u64 {
        return Err(WordError::WordTooLong);
    }
    for _turn in 0..count {
        power.append(word)?;
    }
    Ok(power)
}
