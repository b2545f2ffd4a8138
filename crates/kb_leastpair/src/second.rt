//! The least second word beside a first word, or beside the rest of one.

ghost use Rattle.std.specs.Prelude.{◌≡◌, ◌+◌, ℕ, List, length, drop, min, get_or, IfOk, IfSome, IfNone};
ghost use Rattle.std.proofs.Common.{rules};
ghost use Rattle.kb_word.specs.Relations.{IsOver};
ghost use Rattle.kb_fsa.specs.Language.{generators};
ghost use Rattle.kb_fsa.specs.declared.alphabet.Alphabet.TheVariants.{Pair};
ghost use Rattle.kb_leastpair.specs.LeastPair.{IsAccepted, IsEnd, IsLeastWord};
ghost use Rattle.kb_leastpair.specs.SecondWords.{second_words};

use crate::reading::Reading;
use kb_explore::{Machine, first_accepted};
use kb_fsa::{Fsa, PairSymbols, word_of};
use kb_word::{Letter, Memory, Word};
use std::alloc::Global;

/// The second words that an automaton of pairs accepts beside a first word, from a place and a state on.
#[derive(Drop)]
struct SecondWords<'a> {
    pairs: &'a Fsa,
    symbols: PairSymbols,
    first: &'a Word,
    place: usize,
    state: u32,
    ghost over: { IsOver symbols.n first.now },
}

impl<'a> Machine for SecondWords<'a> {
    type State = Reading;

    ghost machine = { λ it. second_words it.symbols.n it.pairs.now.table it.first.now it.place it.state };

    ghost symbols = { λ it. it.symbols.n };

    ghost same_state = { Prim.search rules };

    fn start(&self, _alloc: Global) -> Result<Option<Reading>, Memory> {
        let (place, state) = (self.place, self.state);
        if state == 0 {
            return Ok(None);
        }
        Ok(Some(Reading { place, state }))
    }

    fn moves(&self, alloc: Global, reading: &Reading) -> Result<Vec<(u32, Reading)>, Memory> {
        let padding = self.symbols.padding();
        let first = number_at(self.first.letters(), reading.place, padding);
        let place = next_place(reading.place, self.first.len());
        let mut moves = Vec::new(alloc);
        for letter in 1..padding {
            let symbol = self.symbols.symbol(first, letter);
            let state = self.pairs.step(reading.state, symbol);
            if state != 0 {
                moves.push((letter, Reading { place, state }))?;
            }
        }
        Ok(moves)
    }

    fn accepts(&self, reading: &Reading) -> bool {
        let padding = self.symbols.padding();
        let first = self.first.letters();
        let mut state = reading.state;
        for place in reading.place..first.len() {
            let letter = number_at(first, place, padding);
            state = self.pairs.step(state, self.symbols.symbol(letter, padding));
        }
        self.pairs.is_accepting(state)
    }
}

/// The number of the letter at a place, and that of the padding past the word's end.
fn number_at(letters: &[Letter], place: usize, padding: u32) -> u32
    ensures { result ≡ get_or letters.now place padding }
{
    match letters.get(place) {
        Some(letter) => u32::from(letter.number()),
        None => padding,
    }
}

/// The place after this one, up to the word's end.
fn next_place(place: usize, len: usize) -> usize
    ensures { result ≡ min (place + 1) len }
{
    if place < len { place + 1 } else { len }
}

/// The least second word that an automaton of pairs accepts beside the first word.
pub fn least_second(alloc: Global, pairs: &Fsa, first: &Word) -> Result<Option<Word>, Memory>
    requires alphabet { (n : ℕ) × (pairs.now.alphabet ≡ Pair n) }
    requires first { IsOver (generators pairs.now.alphabet) first.now }
    ensures found { IfOk result (λ found. IfSome found
        (IsLeastWord (IsAccepted pairs.now first.now))) }
    ensures none { IfOk result (λ found. IfNone found
        ((second : List ℕ) → ¬ IsAccepted pairs.now first.now second)) }
{
    least_end(alloc, pairs, first, 0, pairs.initial())
}

/// The least second word that, beside the rest of the first word from a place on, leads from the state to acceptance.
pub fn least_end(
    alloc: Global,
    pairs: &Fsa,
    first: &Word,
    place: usize,
    state: u32,
) -> Result<Option<Word>, Memory>
    requires alphabet { (n : ℕ) × (pairs.now.alphabet ≡ Pair n) }
    requires first { IsOver (generators pairs.now.alphabet) first.now }
    ensures found { IfOk result (λ found. IfSome found
        (IsLeastWord (IsEnd pairs.now state (drop place first.now)))) }
    ensures none { IfOk result (λ found. IfNone found
        ((second : List ℕ) → ¬ IsEnd pairs.now state (drop place first.now) second)) }
{
    let n = pairs.alphabet().generators();
    let machine = SecondWords {
        pairs,
        symbols: PairSymbols { n },
        first,
        place,
        state,
    };
    match first_accepted(alloc, &machine, u32::MAX) {
        Ok(Some(text)) => Ok(Some(word_of(alloc, text.as_slice())?)),
        Ok(None) => Ok(None),
        Err(_) => Err(Memory),
    }
}
