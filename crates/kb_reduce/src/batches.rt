//! Words that are reduced together, by several workers.

ghost use Rattle.std.specs.Prelude.{◌≡◌, ◌^◌, ◌≤◌, [], All, IfOk, length};
ghost use Rattle.kb_word.specs.Relations.{IsOver};
ghost use Rattle.kb_word.specs.Rewriting.{NormalForm};
ghost use Rattle.kb_fsa.specs.Language.{Accepts, generators};
ghost use Rattle.kb_relations.specs.Images.{CanBeFollowed};
ghost use Rattle.kb_reduce.specs.Batches.{AreAnswersOf, LeadsTo};

use kb_draw::{Crew, Making, make_all};
use kb_fsa::Fsa;
use kb_io::Gate;
use kb_relations::by_multipliers;
use kb_rules::Reducer;
use kb_word::{Memory, Word};
use std::alloc::Global;
use std::marker::Model;
use std::sync::Wait;
use std::thread::Threads;

/// Words of which the normal forms are made.
#[derive(Drop)]
struct ByRules<'a, R: Reducer> {
    reducer: &'a R,
    words: &'a [Word],
}

/// A place is a word's.
impl<'a, R: Reducer> Making for ByRules<'a, R> {
    ghost use Rattle.std.specs.Prelude.{[], length, get_or};
    ghost use Rattle.kb_word.specs.Rewriting.{NormalForm};

    type Made = Word;

    ghost places = { λ it. length it.words.now };

    ghost is = { λ it place. NormalForm (R.rules it.reducer.now) (get_or it.words.now place []) };

    fn places(&self) -> u64 {
        self.words.len() as u64
    }

    fn make(&self, alloc: Global, place: u64) -> Result<Word, Memory> {
        self.reducer.nf(alloc, &self.words[place as usize])
    }
}

/// The normal forms of words, in their order, by the workers of a crew.
pub fn batch_rules<R: Reducer + Sync, G: Gate, T: Threads + Wait + Sync>(
    rt: &T,
    alloc: Global,
    reducer: &R,
    words: &[Word],
    crew: &Crew<'_, G>,
) -> Result<Vec<Word>, Memory>
    requires words { length words.now ≤ 2 ^ 31 }
    ensures { IfOk result (λ answers.
        AreAnswersOf (NormalForm (R.rules reducer.now)) words.now answers.items) }
{
    make_all(rt, alloc, &ByRules { reducer, words }, crew)
}

/// Words that are followed from the empty word. Contracts see them with their automata.
#[derive(Drop)]
struct ByMultipliers<'a> {
    acceptor: &'a Fsa,
    multipliers: &'a [Fsa],
    words: &'a [Word],
}

impl<'a> Model for ByMultipliers<'a> {
    ghost use Rattle.kb_reduce.specs.Batches.{AllCanBeFollowed, WordsToFollow};

    ghost Value = { WordsToFollow };

    ghost view = { λ it. record {
      acceptor = it.acceptor.now;
      multipliers = it.multipliers.now;
      words = it.words.now;
    } };

    ghost invariant = { λ it. AllCanBeFollowed (record {
      acceptor = it.acceptor.now;
      multipliers = it.multipliers.now;
      words = it.words.now;
    }) };
}

/// A place is a word's.
impl<'a> Making for ByMultipliers<'a> {
    ghost use Rattle.std.specs.Prelude.{[], length, get_or};
    ghost use Rattle.kb_reduce.specs.Batches.{LeadsTo};

    type Made = Word;

    ghost places = { λ it. length it.words };

    ghost is = { λ it place. LeadsTo it.acceptor it.multipliers (get_or it.words place []) };

    fn places(&self) -> u64 {
        self.words.len() as u64
    }

    fn make(&self, alloc: Global, place: u64) -> Result<Word, Memory> {
        let words = self.words;
        let word = &words[place as usize];
        by_multipliers(alloc, self.acceptor, self.multipliers, word)
    }
}

/// For each of the words, in their order, the word to which following its letters leads from the empty word, by the
/// workers of a crew.
pub fn batch_multipliers<G: Gate, T: Threads + Wait + Sync>(
    rt: &T,
    alloc: Global,
    acceptor: &Fsa,
    multipliers: &[Fsa],
    words: &[Word],
    crew: &Crew<'_, G>,
) -> Result<Vec<Word>, Memory>
    requires automata { CanBeFollowed acceptor.now multipliers.now }
    requires empty_word { Accepts acceptor.now [] }
    requires over { All (IsOver (generators acceptor.now.alphabet)) words.now }
    requires words { length words.now ≤ 2 ^ 31 }
    ensures { IfOk result (λ answers. AreAnswersOf
        (LeadsTo acceptor.now multipliers.now) words.now answers.items) }
{
    let batch = ByMultipliers {
        acceptor,
        multipliers,
        words,
    };
    make_all(rt, alloc, &batch, crew)
}
