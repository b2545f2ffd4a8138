//! The reader of words.

ghost use Rattle.std.specs.Prelude.{◌≡◌, IfOk, OnOk, IfErr, Ok};
ghost use Rattle.kb_record.specs.Faults.{HasWordFault, Meaning};
ghost use Rattle.kb_wordreader.specs.Letters.{AreByteLetters};

use crate::byte_letters::byte_letters;
use crate::factors::product_of_powers;
use crate::plain_product::plain_product;
use kb_record::{WordError, parse_word};
use kb_word::{Letter, Memory, Presentation, Word};
use std::alloc::Global;

/// Reads words of a presentation.
#[derive(Drop)]
pub struct WordReader {
    /// The presentation, by whose names words are read.
    pub presentation: Presentation,
    byte_letters: Vec<Option<Letter>>,
    ghost are_byte_letters: { AreByteLetters presentation.names byte_letters.items },
}

impl WordReader {
    /// The reader of this presentation's words.
    pub fn new(alloc: Global, presentation: Presentation) -> Result<WordReader, Memory>
        ensures { IfOk result (λ reader. reader.presentation ≡ presentation) }
    {
        let byte_letters = byte_letters(alloc, &presentation.names)?;
        Ok(WordReader {
            presentation,
            byte_letters,
        })
    }

    /// Reads a word: the word becomes that which the bytes stand for, and keeps its memory. Or the refusal of the
    /// bytes, or of the first fault of the word that is met from the left; the word is of no use then.
    ///
    /// By `a_word_that_is_read_has_no_fault` the bytes are refused exactly where they have a fault, but for want of
    /// memory. No clause says which of two faults of the bytes is named, nor what `at` is.
    pub fn parse_into(&self, alloc: Global, bytes: &[u8], word: &mut Word) -> Result<(), WordError>
        ensures read { OnOk result
            (Meaning bytes.now self.now.presentation.names self.now.presentation.inv
            (Ok word.new)) }
        ensures fault { IfErr result
            (HasWordFault bytes.now self.now.presentation.names self.now.presentation.inv) }
    {
        let names = &self.presentation.names;
        match plain_product(alloc, names, &self.byte_letters, bytes, word) {
            Ok(Some(())) => Ok(()),
            Ok(None) => self.parse_powers(alloc, bytes, word),
            Err(fault) => Err(fault),
        }
    }

    /// Reads a word that is no plain product: in one pass, and token by token where that gives up.
    fn parse_powers(&self, alloc: Global, bytes: &[u8], word: &mut Word) -> Result<(), WordError>
        ensures read { OnOk result
            (Meaning bytes.now self.now.presentation.names self.now.presentation.inv
            (Ok word.new)) }
        ensures fault { IfErr result
            (HasWordFault bytes.now self.now.presentation.names self.now.presentation.inv) }
    {
        if let Some(()) = product_of_powers(
            alloc,
            &self.presentation,
            &self.byte_letters,
            bytes,
            word,
        ) {
            return Ok(());
        }
        *word = parse_word(alloc, bytes, &self.presentation)?;
        Ok(())
    }
}
