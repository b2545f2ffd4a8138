//! One pass over a word with powers and brackets.
//!
//! `None` says that the pass gives up: the bytes have a fault, or memory ran out. The word is of no use then.

ghost use Rattle.std.specs.Prelude.{◌≡◌, ◌<◌, ◌≤◌, length, IfSome, Ok};
ghost use Rattle.kb_record.specs.Faults.{Meaning};
ghost use Rattle.kb_record.specs.Meaning.{most_letters};
ghost use Rattle.kb_wordreader.specs.Factors.{Adds, NameFront, BaseFront, FactorFront, FactorsFront, GroupFront};
ghost use Rattle.kb_wordreader.specs.Letters.{AreByteLetters};

use crate::first::{take_first, take_short};
use crate::power::take_power;
use kb_lexing::{behind_gap, is_blank};
use kb_word::{Letter, Names, Presentation, Word};
use std::alloc::Global;

/// How deep brackets may stand in brackets.
const DEEPEST: usize = 64;

/// The word becomes that of bytes with powers and brackets.
pub(crate) fn product_of_powers(
    alloc: Global,
    presentation: &Presentation,
    byte_letters: &[Option<Letter>],
    bytes: &[u8],
    word: &mut Word,
) -> Option<()>
    requires { AreByteLetters presentation.now.names byte_letters.now }
    ensures { IfSome result
        (λ done. Meaning bytes.now presentation.now.names presentation.now.inv (Ok word.new)) }
{
    word.clear();
    let rest = take_factors(alloc, presentation, byte_letters, bytes, DEEPEST, word)?;
    if !is_blank(rest) {
        return None;
    }
    Some(())
}

/// Adds the letters of the factors at the front of a text, as many as are joined by `*`, with brackets in brackets
/// at most `depth` deep, and returns what stands behind them.
#[cycle(factors)]
fn take_factors<'a>(
    alloc: Global,
    presentation: &Presentation,
    byte_letters: &[Option<Letter>],
    text: &'a [u8],
    depth: usize,
    word: &mut Word,
) -> Option<&'a [u8]>
    requires letters { AreByteLetters presentation.now.names byte_letters.now }
    requires few { length word.old ≤ most_letters }
    ensures takes { IfSome result (λ rest. Adds
        (FactorsFront presentation.now.names presentation.now.inv depth text.now rest.now)
        word.old word.new) }
    ensures few { IfSome result (λ rest. length word.new ≤ most_letters) }
    ensures shorter { IfSome result (λ rest. length rest.now < length text.now) }
{
    let mut text = text;
    loop {
        let rest = take_factor(alloc, presentation, byte_letters, text, depth, word)?;
        match behind_gap(rest) {
            [b'*', next @ ..] => text = next,
            _ => return Some(rest),
        }
    }
}

/// Adds the letters of the factor at the front of a text, and returns what stands behind it.
#[cycle(factors)]
fn take_factor<'a>(
    alloc: Global,
    presentation: &Presentation,
    byte_letters: &[Option<Letter>],
    text: &'a [u8],
    depth: usize,
    word: &mut Word,
) -> Option<&'a [u8]>
    requires letters { AreByteLetters presentation.now.names byte_letters.now }
    requires few { length word.old ≤ most_letters }
    ensures takes { IfSome result (λ rest. Adds
        (FactorFront presentation.now.names presentation.now.inv depth text.now rest.now)
        word.old word.new) }
    ensures few { IfSome result (λ rest. length word.new ≤ most_letters) }
    ensures shorter { IfSome result (λ rest. length rest.now < length text.now) }
{
    let start = word.len();
    let rest = take_base(alloc, presentation, byte_letters, text, depth, word)?;
    take_power(alloc, presentation, rest, start, word)
}

/// Adds the letters of the name or group at the front of a text, and returns what stands behind it.
#[cycle(factors)]
fn take_base<'a>(
    alloc: Global,
    presentation: &Presentation,
    byte_letters: &[Option<Letter>],
    text: &'a [u8],
    depth: usize,
    word: &mut Word,
) -> Option<&'a [u8]>
    requires letters { AreByteLetters presentation.now.names byte_letters.now }
    requires few { length word.old ≤ most_letters }
    ensures takes { IfSome result (λ rest. Adds
        (BaseFront presentation.now.names presentation.now.inv depth text.now rest.now)
        word.old word.new) }
    ensures few { IfSome result (λ rest. length word.new ≤ most_letters) }
    ensures shorter { IfSome result (λ rest. length rest.now < length text.now) }
{
    if let Some(rest) = take_short(&presentation.names, byte_letters, text, word) {
        return Some(rest);
    }
    if let [b'(', inside @ ..] = behind_gap(text) {
        return take_group(alloc, presentation, byte_letters, inside, depth, word);
    }
    take_letter(alloc, &presentation.names, byte_letters, text, word)
}

/// Adds the letters of the factors behind an open bracket, and returns what stands behind the closing one.
#[cycle(factors)]
fn take_group<'a>(
    alloc: Global,
    presentation: &Presentation,
    byte_letters: &[Option<Letter>],
    inside: &'a [u8],
    depth: usize,
    word: &mut Word,
) -> Option<&'a [u8]>
    requires letters { AreByteLetters presentation.now.names byte_letters.now }
    requires few { length word.old ≤ most_letters }
    ensures takes { IfSome result (λ rest. Adds
        (GroupFront presentation.now.names presentation.now.inv depth inside.now rest.now)
        word.old word.new) }
    ensures few { IfSome result (λ rest. length word.new ≤ most_letters) }
    ensures shorter { IfSome result (λ rest. length rest.now < length inside.now) }
{
    let depth = depth.checked_sub(1)?;
    let rest = take_factors(alloc, presentation, byte_letters, inside, depth, word)?;
    match behind_gap(rest) {
        [b')', behind @ ..] => Some(behind),
        _ => None,
    }
}

/// Adds the letter of the name at the front of a text, and returns what stands behind it.
fn take_letter<'a>(
    alloc: Global,
    names: &Names,
    byte_letters: &[Option<Letter>],
    text: &'a [u8],
    word: &mut Word,
) -> Option<&'a [u8]>
    requires letters { AreByteLetters names.now byte_letters.now }
    requires few { length word.old ≤ most_letters }
    ensures takes { IfSome result
        (λ rest. Adds (NameFront names.now text.now rest.now) word.old word.new) }
    ensures few { IfSome result (λ rest. length word.new ≤ most_letters) }
    ensures shorter { IfSome result (λ rest. length rest.now < length text.now) }
{
    let mut fault = None;
    let rest = take_first(alloc, names, byte_letters, text, word, &mut fault)?;
    if fault.is_some() {
        return None;
    }
    Some(rest)
}
