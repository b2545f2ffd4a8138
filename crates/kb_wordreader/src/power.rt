//! Powers of a word's end. `None` says that the pass gives up: there is no such word, or memory ran out.

ghost use Rattle.std.specs.Prelude.{◌≡◌, ℕ, List, Option, ◌≤◌, length, take, drop, IfSome, Ok, Some};
ghost use Rattle.kb_word.specs.Relations.{inverse_word};
ghost use Rattle.kb_record.specs.Meaning.{most_letters, repetition, power_meaning};
ghost use Rattle.kb_wordreader.specs.Factors.{Adds, PowerFront};

use crate::product::MOST_LETTERS;
use kb_lexing::{behind_gap, first_number};
use kb_word::{Presentation, Word};
use std::alloc::Global;

/// Raises the word's end, from the place on, to the power at the front of a text, and returns what stands behind
/// it. Where no power stands there, word and text stay.
pub(crate) fn take_power<'a>(
    alloc: Global,
    presentation: &Presentation,
    text: &'a [u8],
    start: usize,
    word: &mut Word,
) -> Option<&'a [u8]>
    requires start { start ≤ length word.old }
    requires few { length word.old ≤ most_letters }
    ensures takes { IfSome result (λ rest. Adds
        (PowerFront presentation.now.names presentation.now.inv text.now rest.now
        (drop start word.old))
        (take start word.old) word.new) }
    ensures few { IfSome result (λ rest. length word.new ≤ most_letters) }
    ensures shorter { IfSome result (λ rest. length rest.now ≤ length text.now) }
{
    let [b'^', behind @ ..] = behind_gap(text) else {
        return Some(text);
    };
    let (exponent, rest) = first_number(behind_gap(behind))?;
    raise_end(alloc, presentation, word, start, exponent)?;
    Some(rest)
}

/// Raises the word's end, from the place on, to a power; one below 0 repeats the inverse.
fn raise_end(
    alloc: Global,
    presentation: &Presentation,
    word: &mut Word,
    start: usize,
    exponent: i64,
) -> Option<()>
    requires { start ≤ length word.old }
    ensures raised { IfSome result (λ done. Adds
        (λ letters. power_meaning presentation.now.names presentation.now.inv (Some exponent)
        (drop start word.old) ≡ Ok letters)
        (take start word.old) word.new) }
    ensures few { IfSome result (λ done. length word.new ≤ most_letters) }
{
    if exponent >= 0 {
        return repeat_end(word, start, exponent as u64);
    }
    invert_end(alloc, presentation, word, start)?;
    repeat_end(word, start, exponent.unsigned_abs())
}

/// Puts the inverse of the word's end, from the place on, in its place. That of one letter takes no memory.
fn invert_end(
    alloc: Global,
    presentation: &Presentation,
    word: &mut Word,
    start: usize,
) -> Option<()>
    requires { start ≤ length word.old }
    ensures inverted { IfSome result (λ done. Adds
        (λ letters. inverse_word presentation.now.inv (drop start word.old) ≡ Some letters)
        (take start word.old) word.new) }
    ensures start { IfSome result (λ done. start ≤ length word.new) }
{
    if let [letter] = &word.letters()[start..] {
        let inverse = presentation.letter_inverse(*letter)?;
        word.truncate(start);
        return word.push(inverse).ok();
    }
    invert_letters(alloc, presentation, word, start)
}

/// Puts the inverse of the word's end, from the place on, in its place, letter by letter.
fn invert_letters(
    alloc: Global,
    presentation: &Presentation,
    word: &mut Word,
    start: usize,
) -> Option<()>
    requires { start ≤ length word.old }
    ensures inverted { IfSome result (λ done. Adds
        (λ letters. inverse_word presentation.now.inv (drop start word.old) ≡ Some letters)
        (take start word.old) word.new) }
    ensures start { IfSome result (λ done. start ≤ length word.new) }
{
    let mut end = Word::new(alloc);
    for letter in &word.letters()[start..] {
        end.push(*letter).ok()?;
    }
    let inverse = presentation.inverse_of(alloc, &end).ok()??;
    word.truncate(start);
    word.append(&inverse).ok()
}

/// Repeats the word's end, from the place on, so that it stands there so many times.
///
/// The letters behind the end are those that stand a length of the end before them.
fn repeat_end(word: &mut Word, start: usize, count: u64) -> Option<()>
    requires { start ≤ length word.old }
    ensures repeated { IfSome result (λ done. Adds
        (λ letters. repetition count (drop start word.old) ≡ Ok letters)
        (take start word.old) word.new) }
    ensures few { IfSome result (λ done. length word.new ≤ most_letters) }
{
    let end = word.len() - start;
    let len = (start as u64).saturating_add(count.saturating_mul(end as u64));
    if len > MOST_LETTERS as u64 {
        return None;
    }
    let len = len as usize;
    word.truncate(len);
    for place in start..len.saturating_sub(end) {
        let letter = word.letters()[place];
        word.push(letter).ok()?;
    }
    Some(())
}
