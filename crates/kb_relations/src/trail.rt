//! The trail of a multiplier along a word.

ghost use Rattle.std.specs.Prelude.{◌≡◌, ℕ, ◌<◌, suc, List, [], length, get_or, take, IfOk, OnOk};
ghost use Rattle.kb_word.specs.Relations.{IsOver};
ghost use Rattle.kb_fsa.specs.Language.{generators};
ghost use Rattle.kb_fsa.specs.declared.alphabet.Alphabet.TheVariants.{Pair};
ghost use Rattle.kb_relations.specs.Trails.{IsTrail};

use kb_fsa::{Fsa, PairSymbols};
use kb_word::{Memory, Word};
use std::alloc::Global;
use std::marker::Model;

/// The states in which a multiplier reads a word beside itself: after none of its letters, after the first, and so on,
/// as far as they are known.
#[derive(Debug, Drop)]
pub(crate) struct Trail {
    states: Vec<u32>,
}

impl Model for Trail {
    ghost use Rattle.std.specs.Prelude.{ℕ, List};

    ghost Value = { List ℕ };

    ghost view = { λ trail. trail.states.items };
}

impl Trail {
    /// No state.
    pub(crate) fn new(alloc: Global) -> Trail
        ensures { result ≡ [] }
    {
        Trail {
            states: Vec::new(alloc),
        }
    }

    /// The state at a place, and 0 where none is known.
    pub(crate) fn state(&self, place: usize) -> u32
        ensures { result ≡ get_or self.now place 0 }
    {
        self.states.get(place).copied().unwrap_or(0)
    }

    /// Keeps the first states only, as many as are named.
    pub(crate) fn truncate(&mut self, len: usize)
        ensures { self.new ≡ take len self.old }
    {
        self.states.truncate(len);
    }

    /// Goes on to the word's end.
    pub(crate) fn extend(&mut self, multiplier: &Fsa, word: &Word) -> Result<(), Memory>
        requires alphabet { (n : ℕ) × (multiplier.now.alphabet ≡ Pair n) }
        requires word { IsOver (generators multiplier.now.alphabet) word.now }
        requires trail { IsTrail multiplier.now word.now self.old }
        ensures trail { OnOk result (IsTrail multiplier.now word.now self.new) }
        ensures whole { OnOk result (length self.new ≡ suc (length word.now)) }
    {
        let symbols = PairSymbols {
            n: multiplier.alphabet().generators(),
        };
        let letters = word.letters();
        if self.states.is_empty() {
            self.states.push(multiplier.initial())?;
        }
        let known = self.states.len() - 1;
        for place in known..letters.len() {
            let letter = u32::from(letters[place].number());
            let state = multiplier.step(self.states[place], symbols.symbol(letter, letter));
            self.states.push(state)?;
        }
        Ok(())
    }
}

/// Keeps the first states of each trail only, as many as are named.
pub(crate) fn cut(trails: &mut [Trail], len: usize)
    ensures one_each { length trails.new ≡ length trails.old }
    ensures cut { (index : ℕ) → index < length trails.old
        → get_or trails.new index [] ≡ take len (get_or trails.old index []) }
{
    for trail in trails.iter_mut() {
        trail.truncate(len);
    }
}
