//! One more name of a product.

ghost use Rattle.std.specs.Prelude.{◌≡◌, ◌<◌, ◌≤◌, length, IfErr, OnOk, Ok, Err};
ghost use Rattle.std.specs.List.{AllByRecursion};
ghost use Rattle.kb_record.specs.Faults.{Evaluates};
ghost use Rattle.kb_record.specs.Meaning.{most_letters};
ghost use Rattle.kb_wordreader.specs.Letters.{AreByteLetters, letter_of};
ghost use Rattle.kb_wordreader.specs.Products.{Takes, times_name};

use kb_record::WordError;
use kb_word::{Letter, Names, OwnedText, Word};
use std::alloc::Global;

/// The most letters that a word may have.
pub(crate) const MOST_LETTERS: usize = 65_535;

/// Adds the letter of a name to the word, where no fault was met, and keeps the first fault.
pub(crate) fn take_name(
    alloc: Global,
    names: &Names,
    byte_letters: &[Option<Letter>],
    name: &[u8],
    word: &mut Word,
    fault: &mut Option<WordError>,
)
    requires letters { AreByteLetters names.now byte_letters.now }
    requires ascii { AllByRecursion (λ byte. byte < 128) name.now }
    requires few { length word.old ≤ most_letters }
    ensures takes { Takes names.now word.old name.now fault.old word.new fault.new }
    ensures few { length word.new ≤ most_letters }
{
    if fault.is_some() {
        return;
    }
    if let Err(error) = add_name(alloc, names, byte_letters, name, word) {
        *fault = Some(error);
    }
}

/// Adds the letter of a name to the word, and none for `IdWord`.
fn add_name(
    alloc: Global,
    names: &Names,
    byte_letters: &[Option<Letter>],
    name: &[u8],
    word: &mut Word,
) -> Result<(), WordError>
    requires letters { AreByteLetters names.now byte_letters.now }
    requires ascii { AllByRecursion (λ byte. byte < 128) name.now }
    requires few { length word.old ≤ most_letters }
    ensures added { OnOk result (times_name names.now word.old name.now ≡ Ok word.new) }
    ensures few { length word.new ≤ most_letters }
    ensures fault { IfErr result
        (λ fault. Evaluates (times_name names.now word.old name.now) (Err fault)) }
{
    if name == b"IdWord".as_slice() {
        return Ok(());
    }
    let Some(letter) = letter_of(names, byte_letters, name) else {
        let name = OwnedText::from_str(alloc, text_of(name))?;
        return Err(WordError::UnknownGenerator { name });
    };
    if word.len() == MOST_LETTERS {
        return Err(WordError::WordTooLong);
    }
    word.push(letter)?;
    Ok(())
}

/// The letter of a name.
fn letter_of(names: &Names, byte_letters: &[Option<Letter>], name: &[u8]) -> Option<Letter>
    requires letters { AreByteLetters names.now byte_letters.now }
    requires ascii { AllByRecursion (λ byte. byte < 128) name.now }
    ensures { result ≡ letter_of names.now name.now }
{
    if let [byte] = name
        && let Some(letter) = byte_letters.get(usize::from(*byte))
    {
        return *letter;
    }
    names.number_of(text_of(name))
}

/// The text of ASCII bytes.
fn text_of(bytes: &[u8]) -> &str
    requires { AllByRecursion (λ byte. byte < 128) bytes.now }
    ensures { result.now ≡ bytes.now }
{
    std::str::from_utf8(bytes).unwrap()
}
