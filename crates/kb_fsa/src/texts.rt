//! From texts back to words, and to pairs of words.

ghost use Rattle.std.specs.Prelude.{◌≡◌, ◌≤◌, ◌<◌, ◌^◌, ◌++◌, All, IfOk, OnOk};
ghost use Rattle.kb_fsa.specs.Padding.{IsPadded, IsTextOfPair, letters_of};

use crate::pair_symbols::PairSymbols;
use kb_word::{Letter, Memory, Word};
use std::alloc::Global;

/// The word whose letters are the symbols of a text.
pub fn word_of(alloc: Global, text: &[u32]) -> Result<Word, Memory>
    requires { All (λ symbol. symbol < 2 ^ 16) text.now }
    ensures { IfOk result (λ word. word ≡ text.now) }
{
    let mut word = Word::new(alloc);
    for symbol in text {
        word.push(Letter::new(*symbol as u16))?;
    }
    Ok(word)
}

/// The pair of words over n generators whose padded text is given.
pub fn pair_of(alloc: Global, n: u16, text: &[u32]) -> Result<(Word, Word), Memory>
    requires generators { n ≤ 65534 }
    requires padded { IsPadded n text.now }
    ensures { IfOk result (λ pair. IsTextOfPair n text.now pair.0 pair.1) }
{
    let symbols = PairSymbols { n };
    let mut first = Word::new(alloc);
    let mut second = Word::new(alloc);
    for symbol in text {
        push_letter(&mut first, symbols, symbols.first(*symbol))?;
        push_letter(&mut second, symbols, symbols.second(*symbol))?;
    }
    Ok((first, second))
}

/// Adds the letter of this number, or nothing for the padding.
fn push_letter(word: &mut Word, symbols: PairSymbols, number: u32) -> Result<(), Memory>
    requires { number < 2 ^ 16 }
    ensures { OnOk result (word.new ≡ word.old ++ letters_of symbols.n number) }
{
    if number != symbols.padding() {
        word.push(Letter::new(number as u16))?;
    }
    Ok(())
}
