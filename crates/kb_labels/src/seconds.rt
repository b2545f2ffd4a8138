//! The least second word beside a first one that isn't the wanted element.

ghost use Rattle.std.specs.Prelude.{◌≡◌, ◌↔◌, ◌+◌, ◌≤◌, ◌<◌, ◌^◌, [], ◌∷◌, ◌++◌, false, ℕ, List, length, min, get_or, IfOk, IfSome, IfNone};
ghost use Rattle.std.proofs.Common.{rules};
ghost use Rattle.kb_word.specs.Relations.{IsOver};
ghost use Rattle.kb_word.specs.WordOrders.{Below};
ghost use Rattle.kb_word.specs.Words.{OneOf};
ghost use Rattle.kb_word.specs.Rewriting.{AreDecreasing, IsIrreducible, NormalForm};
ghost use Rattle.kb_fsa.specs.Table.{IsLive};
ghost use Rattle.kb_fsa.specs.Graphs.{IsMarked};
ghost use Rattle.kb_labels.specs.OrderProps.{decreasing_prop};
ghost use Rattle.kb_labels.specs.Seconds.{normal_form_of, second_words};
ghost use Rattle.kb_labels.specs.Unequal.{IsLeastOther, IsOther};

use crate::reading::Reading;
use kb_explore::{Machine, first_accepted};
use kb_fsa::{Fsa, PairSymbols, word_of};
use kb_rules::{Reducer, Workspace};
use kb_word::{Letter, Memory, Word};
use std::alloc::Global;

/// The second words of an automaton of pairs beside a first word, from a state on and behind a word.
#[derive(Drop)]
pub(crate) struct Seconds<'a, R: Reducer> {
    /// The automaton of pairs.
    pub(crate) pairs: &'a Fsa,
    /// Which of its states lead to acceptance.
    pub(crate) marks: &'a [bool],
    /// The symbols of pairs.
    pub(crate) symbols: PairSymbols,
    /// What gives normal forms.
    pub(crate) reducer: &'a R,
    /// The first word.
    pub(crate) first: &'a Word,
    /// The state.
    pub(crate) state: u32,
    /// The word behind which the second words are read.
    pub(crate) word: &'a Word,
    /// The normal form that isn't wanted.
    pub(crate) target: &'a Word,
    pub ghost decreasing: { AreDecreasing (Below (R.order reducer.now)) (R.rules reducer.now) } by { decreasing_prop (R.order reducer.now) (R.rules reducer.now) },
    pub ghost over: { IsOver symbols.n first.now },
}

impl<'a, R: Reducer> Seconds<'a, R> {
    /// The state, if it is marked.
    fn is_marked(&self, state: u32) -> bool
        ensures { result ≡ get_or self.now.marks.now state false }
    {
        self.marks.get(state as usize).copied().unwrap_or(false)
    }
}

impl<'a, R: Reducer> Machine for Seconds<'a, R> {
    type State = Reading;

    ghost machine = { λ it. second_words (record {
      n = it.symbols.n;
      table = it.pairs.now.table;
      marks = it.marks.now;
      normal = normal_form_of (R.order it.reducer.now) (R.rules it.reducer.now) it.decreasing;
      first = it.first.now;
      state = it.state;
      word = it.word.now;
      target = it.target.now;
    }) };

    ghost symbols = { λ it. it.symbols.n };

    ghost same_state = { Prim.search rules };

    fn start(&self, alloc: Global) -> Result<Option<Reading>, Memory> {
        if !self.is_marked(self.state) {
            return Ok(None);
        }
        let word = self.word.copy(alloc)?;
        let state = self.state;
        Ok(Some(Reading {
            place: 0,
            state,
            word,
        }))
    }

    fn moves(&self, alloc: Global, reading: &Reading) -> Result<Vec<(u32, Reading)>, Memory> {
        let padding = self.symbols.padding();
        let first = number_at(self.first.letters(), reading.place, padding);
        let place = next_place(reading.place, self.first.len());
        let mut workspace = Workspace::new(alloc);
        let mut moves = Vec::new(alloc);
        for letter in 1..padding {
            let symbol = self.symbols.symbol(first, letter);
            let state = self.pairs.step(reading.state, symbol);
            if self.is_marked(state) {
                let word = longer(alloc, self.reducer, &reading.word, letter, &mut workspace)?;
                moves.push((letter, Reading { place, state, word }))?;
            }
        }
        Ok(moves)
    }

    fn accepts(&self, reading: &Reading) -> bool {
        let is_target = reading.word == *self.target;
        let padding = self.symbols.padding();
        let first = self.first.letters();
        let mut state = reading.state;
        for place in reading.place..first.len() {
            let letter = number_at(first, place, padding);
            state = self.pairs.step(state, self.symbols.symbol(letter, padding));
        }
        self.pairs.is_accepting(state) && !is_target
    }
}

impl<'a, R: Reducer> Seconds<'a, R> {
    /// The least second word that is accepted with another normal form than the unwanted one.
    pub(crate) fn least(&self, alloc: Global) -> Result<Option<Word>, Memory>
        requires generators { self.now.symbols.n ≤ 65534 }
        requires word { IsIrreducible (OneOf (R.rules self.now.reducer.now)) self.now.word.now }
        requires live { (state : ℕ) → IsMarked self.now.marks.now state
            ↔ IsLive self.now.pairs.now.table state }
        ensures found { IfOk result (λ found. IfSome found
            (IsLeastOther self.now.symbols.n (R.rules self.now.reducer.now)
            self.now.pairs.now.table self.now.state self.now.first.now self.now.word.now
            self.now.target.now)) }
        ensures none { IfOk result (λ found. IfNone found ((second : List ℕ)
            → ¬ IsOther self.now.symbols.n (R.rules self.now.reducer.now)
            self.now.pairs.now.table self.now.state self.now.first.now self.now.word.now
            self.now.target.now second)) }
    {
        match first_accepted(alloc, self, u32::MAX) {
            Ok(Some(text)) => Ok(Some(word_of(alloc, text.as_slice())?)),
            Ok(None) => Ok(None),
            Err(_) => Err(Memory),
        }
    }
}

/// The number of the letter at a place, and that of the padding past the word's end.
fn number_at(letters: &[Letter], place: usize, padding: u32) -> u32
    ensures { result ≡ get_or letters.now place padding }
{
    match letters.get(place) {
        Some(letter) => u32::from(letter.number()),
        None => padding,
    }
}

/// The place after this one, up to the word's end.
fn next_place(place: usize, len: usize) -> usize
    ensures { result ≡ min (place + 1) len }
{
    if place < len { place + 1 } else { len }
}

/// The normal form of a word with a letter more.
fn longer<R: Reducer>(
    alloc: Global,
    reducer: &R,
    word: &Word,
    letter: u32,
    workspace: &mut Workspace,
) -> Result<Word, Memory>
    requires { letter < 2 ^ 16 }
    ensures { IfOk result (NormalForm (R.rules reducer.now) (word.now ++ letter ∷ [])) }
{
    let mut longer = word.copy(alloc)?;
    longer.push(Letter::new(letter as u16))?;
    reducer.reduce(&mut longer, workspace)?;
    Ok(longer)
}
