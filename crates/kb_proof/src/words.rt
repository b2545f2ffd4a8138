//! Words as they are printed.

ghost use Rattle.std.specs.Prelude.{◌≡◌, ◌<◌, ◌≤◌, IfOk, length};
ghost use Rattle.kb_word.specs.Printed.{letter_name, text_of_word};
ghost use Rattle.kb_word.specs.Relations.{IsOver};
ghost use Rattle.kb_proof.specs.Printable.{AreReadableNames};
ghost use Rattle.kb_proof.specs.Reading.{Reads, ReadsJoined};

use crate::cut::cut_at;
use kb_word::{Letter, Memory, Names, Word};
use std::alloc::Global;

/// The word whose text the bytes are.
pub(crate) fn read_word(alloc: Global, names: &Names, bytes: &[u8]) -> Result<Option<Word>, Memory>
    requires { AreReadableNames names.now }
    ensures { IfOk result
        (λ found. Reads (text_of_word names.now) (IsOver (length names.now)) bytes.now found) }
{
    if bytes == b"IdWord".as_slice() {
        return Ok(Some(Word::new(alloc)));
    }
    read_product(alloc, names, bytes)
}

/// The word of one letter or more whose text the bytes are.
fn read_product(alloc: Global, names: &Names, bytes: &[u8]) -> Result<Option<Word>, Memory>
    requires { AreReadableNames names.now }
    ensures { IfOk result
        (λ found. ReadsJoined 42 (letter_name names.now)
        (λ letter. (0 < letter) × (letter ≤ length names.now)) bytes.now found) }
{
    let mut word = Word::new(alloc);
    let mut rest = bytes;
    while let Some((name, behind)) = cut_at(b'*', rest) {
        let Some(letter) = letter_named(names, name) else {
            return Ok(None);
        };
        word.push(letter)?;
        rest = behind;
    }
    let Some(letter) = letter_named(names, rest) else {
        return Ok(None);
    };
    word.push(letter)?;
    Ok(Some(word))
}

/// The letter whose name the bytes are.
fn letter_named(names: &Names, bytes: &[u8]) -> Option<Letter>
    requires { AreReadableNames names.now }
    ensures { Reads (letter_name names.now)
        (λ letter. (0 < letter) × (letter ≤ length names.now)) bytes.now result }
{
    let Ok(name) = std::str::from_utf8(bytes) else {
        return None;
    };
    names.number_of(name)
}
