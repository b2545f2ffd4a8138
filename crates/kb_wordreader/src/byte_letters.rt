//! The letters whose names have one byte.

ghost use Rattle.std.specs.Prelude.{◌≡◌, ◌<◌, [], ◌∷◌, IfOk};
ghost use Rattle.kb_wordreader.specs.Letters.{AreByteLetters, letter_of};

use kb_word::{Letter, Memory, Names};
use std::alloc::Global;

/// The letter of each byte that is a name, in the order of the bytes.
pub(crate) fn byte_letters(alloc: Global, names: &Names) -> Result<Vec<Option<Letter>>, Memory>
    ensures { IfOk result (λ letters. AreByteLetters names.now letters.items) }
{
    let mut letters = Vec::with_capacity(alloc, 256)?;
    for byte in 0..=u8::MAX {
        letters.push(byte_letter(names, byte))?;
    }
    Ok(letters)
}

/// The letter whose name is the byte, where the byte is a text.
fn byte_letter(names: &Names, byte: u8) -> Option<Letter>
    ensures { byte < 128 → result ≡ letter_of names.now (byte ∷ []) }
{
    let bytes = [byte];
    let Ok(name) = std::str::from_utf8(&bytes) else {
        return None;
    };
    names.number_of(name)
}
