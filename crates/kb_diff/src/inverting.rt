//! Inverses and prefixes of words.

ghost use Rattle.std.specs.Prelude.{◌≡◌, ◌+◌, ◌<◌, ◌≤◌, IfOk, Some, take};
ghost use Rattle.kb_word.specs.Relations.{IsOver, inverse_word};
ghost use Rattle.kb_fsa.specs.Padding.{letters_of};
ghost use Rattle.kb_diff.specs.Groups.{EachInverts};
ghost use Rattle.kb_diff.specs.Tables.{listed};

use crate::letters::letter_of;
use kb_word::{Letter, Memory, Presentation, Word};
use std::alloc::Global;

/// The word's first letters, so many, or all where it has fewer.
pub(crate) fn prefix_of(alloc: Global, word: &Word, len: usize) -> Result<Word, Memory>
    ensures { IfOk result (λ prefix. prefix ≡ take len word.now) }
{
    let mut prefix = word.copy(alloc)?;
    prefix.truncate(len);
    Ok(prefix)
}

/// The inverse of a word of a group.
pub(crate) fn inverse_in_group(
    alloc: Global,
    presentation: &Presentation,
    word: &Word,
) -> Result<Word, Memory>
    requires group { EachInverts presentation.now.n presentation.now.inv }
    requires letters { IsOver presentation.now.n word.now }
    ensures { IfOk result (λ inverse. inverse_word presentation.now.inv word.now ≡ Some inverse) }
{
    match presentation.inverse_of(alloc, word)? {
        Some(inverse) => Ok(inverse),
        None => unreachable!(),
    }
}

/// The inverse of a letter of pairs: none where it is the padding, which counts as nothing.
pub(crate) fn inverse_of_letter(presentation: &Presentation, number: u32) -> Option<Letter>
    requires group { EachInverts presentation.now.n presentation.now.inv }
    requires positive { 0 < number }
    requires letter { number ≤ presentation.now.n + 1 }
    ensures { inverse_word presentation.now.inv (letters_of presentation.now.n number)
        ≡ Some (listed result) }
{
    let letter = letter_of(presentation.n, number)?;
    match presentation.letter_inverse(letter) {
        Some(inverse) => Some(inverse),
        None => unreachable!(),
    }
}
