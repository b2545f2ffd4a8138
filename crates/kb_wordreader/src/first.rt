//! The name at the front of a text.

ghost use Rattle.std.specs.Prelude.{◌≡◌, ◌<◌, ◌≤◌, List, ℕ, [], ◌∷◌, length, IfSome, IfNone, None, Ok};
ghost use Rattle.kb_record.specs.Meaning.{most_letters};
ghost use Rattle.kb_wordreader.specs.Letters.{AreByteLetters};
ghost use Rattle.kb_wordreader.specs.Products.{TakesFirst, Passed, times_name};

use crate::product::{MOST_LETTERS, take_name};
use kb_lexing::{behind_gap, first_name, short_name, starred_name};
use kb_record::WordError;
use kb_word::{Letter, Names, Word};
use std::alloc::Global;

/// Takes the name at the front of a text as [`take_name`] does, and returns what stands behind it; `None` where no
/// name stands there.
pub(crate) fn take_first<'a>(
    alloc: Global,
    names: &Names,
    byte_letters: &[Option<Letter>],
    text: &'a [u8],
    word: &mut Word,
    fault: &mut Option<WordError>,
) -> Option<&'a [u8]>
    requires letters { AreByteLetters names.now byte_letters.now }
    requires few { length word.old ≤ most_letters }
    ensures takes { IfSome result
        (λ rest. TakesFirst names.now text.now rest.now word.old fault.old word.new fault.new) }
    ensures few { length word.new ≤ most_letters }
{
    if fault.is_none()
        && let Some(rest) = take_short(names, byte_letters, text, word)
    {
        return Some(rest);
    }
    let (name, rest) = first_name(behind_gap(text))?;
    take_name(alloc, names, byte_letters, name, word, fault);
    Some(rest)
}

/// Takes names of one byte, as long as `*` stands directly behind each, and returns what stands behind them. Where
/// there is a fault it takes none.
pub(crate) fn take_starred_names<'a>(
    names: &Names,
    byte_letters: &[Option<Letter>],
    text: &'a [u8],
    word: &mut Word,
    fault: &Option<WordError>,
) -> &'a [u8]
    requires letters { AreByteLetters names.now byte_letters.now }
    requires few { length word.old ≤ most_letters }
    ensures takes { (bytes : List ℕ) → Passed names.now bytes text.now word.old fault.now
        → Passed names.now bytes result.now word.new fault.now }
    ensures few { length word.new ≤ most_letters }
    ensures shorter { length result.now ≤ length text.now }
{
    if fault.is_some() {
        return text;
    }
    let mut text = text;
    while let Some(rest) = take_starred(names, byte_letters, text, word) {
        text = rest;
    }
    text
}

/// Adds the letter whose name is one byte at the front of a text, with `*` directly behind it, and returns what stands
/// behind that. Where it returns `None` the word is as it was.
fn take_starred<'a>(
    names: &Names,
    byte_letters: &[Option<Letter>],
    text: &'a [u8],
    word: &mut Word,
) -> Option<&'a [u8]>
    requires letters { AreByteLetters names.now byte_letters.now }
    requires few { length word.old ≤ most_letters }
    ensures takes { IfSome result
        (λ rest. TakesFirst names.now text.now (42 ∷ rest.now) word.old None word.new None) }
    ensures few { length word.new ≤ most_letters }
    ensures kept { IfNone result (word.new ≡ word.old) }
{
    let (byte, rest) = starred_name(text)?;
    push_byte(names, byte_letters, byte, word)?;
    Some(rest)
}

/// Adds the letter whose name is one byte at the front of a text, and returns what stands behind it. Where it
/// returns `None` the word is as it was.
pub(crate) fn take_short<'a>(
    names: &Names,
    byte_letters: &[Option<Letter>],
    text: &'a [u8],
    word: &mut Word,
) -> Option<&'a [u8]>
    requires letters { AreByteLetters names.now byte_letters.now }
    requires few { length word.old ≤ most_letters }
    ensures takes { IfSome result
        (λ rest. TakesFirst names.now text.now rest.now word.old None word.new None) }
    ensures few { length word.new ≤ most_letters }
    ensures kept { IfNone result (word.new ≡ word.old) }
{
    let (byte, rest) = short_name(text)?;
    push_byte(names, byte_letters, byte, word)?;
    Some(rest)
}

/// Adds the letter whose name is one byte, where there is one and the word has room. Where it returns `None` the word
/// is as it was.
fn push_byte(
    _names: &Names,
    byte_letters: &[Option<Letter>],
    byte: u8,
    word: &mut Word,
) -> Option<()>
    requires letters { AreByteLetters _names.now byte_letters.now }
    requires few { length word.old ≤ most_letters }
    requires ascii { byte < 128 }
    ensures pushed { IfSome result (λ done. times_name _names.now word.old (byte ∷ []) ≡ Ok word.new) }
    ensures few { length word.new ≤ most_letters }
    ensures kept { IfNone result (word.new ≡ word.old) }
{
    let letter = (*byte_letters.get(usize::from(byte))?)?;
    if word.len() == MOST_LETTERS {
        return None;
    }
    word.push(letter).ok()
}
