//! Automata over an alphabet.

ghost use Rattle.std.specs.Prelude.{◌≡◌, ◌↔◌, ◌≤◌, ℕ, length, get_or, IsTrue, IfOk};
ghost use Rattle.std.specs.Slice.Iter.{iter_rest};
ghost use Rattle.kb_word.specs.Relations.{IsOver};
ghost use Rattle.kb_fsa.specs.Table.{moves_of, is_accepting, step, IsRow, IsTable};
ghost use Rattle.kb_fsa.specs.Language.{IsAutomaton, Accepts, AcceptsPair, generators};
ghost use Rattle.kb_fsa.specs.declared.alphabet.Alphabet.TheVariants.{Plain, Pair};

use crate::alphabet::Alphabet;
use crate::pair_symbols::PairSymbols;
use crate::table::Table;
use kb_word::{Letter, Memory, Word};
use std::alloc::Global;
use std::marker::Model;
use std::slice::Iter;

/// A deterministic automaton that reads words, or pairs of words as padded texts.
///
/// Targets are states of the table and symbols those of the alphabet. In an automaton of pairs each text that
/// leads to a state is padded, and so is each accepted text.
#[derive(Debug, Drop)]
pub struct Fsa {
    alphabet: Alphabet,
    table: Table,
}

impl Model for Fsa {
    ghost use Rattle.kb_fsa.specs.Language.{Automaton, IsAutomaton};

    ghost Value = { Automaton };

    ghost view = { λ fsa. record { alphabet = fsa.alphabet; table = fsa.table } };

    ghost invariant = { λ fsa. IsAutomaton (record { alphabet = fsa.alphabet; table = fsa.table }) };
}

impl Fsa {
    /// The automaton with this alphabet and this table.
    pub fn new(alphabet: Alphabet, table: Table) -> Fsa
        requires { IsAutomaton (record { alphabet = alphabet; table = table }) }
        ensures { result ≡ record { alphabet = alphabet; table = table } }
    {
        Fsa { alphabet, table }
    }

    /// What it reads.
    pub fn alphabet(&self) -> Alphabet
        ensures alphabet { result ≡ self.now.alphabet }
        ensures automaton { IsAutomaton self.now }
    {
        self.alphabet
    }

    /// Its states and moves.
    pub fn table(&self) -> &Table
        ensures table { result.now ≡ self.now.table }
        ensures automaton { IsAutomaton self.now }
    {
        &self.table
    }

    /// The initial state, and 0 where there is none.
    pub fn initial(&self) -> u32
        ensures { result ≡ self.now.table.initial }
    {
        self.table.initial()
    }

    /// How many states there are.
    pub fn len(&self) -> u32
        ensures { result ≡ length self.now.table.rows }
    {
        self.table.len()
    }

    /// Whether the state accepts.
    pub fn is_accepting(&self, state: u32) -> bool
        ensures { result ≡ is_accepting self.now.table state }
    {
        self.table.is_accepting(state)
    }

    /// The moves of a state, each a symbol and its target, by ascending symbols; none where there is no such
    /// state. Takes no memory.
    pub fn moves(&self, state: u32) -> Iter<'_, (u32, u32)>
        ensures moves { iter_rest result ≡ moves_of self.now.table state }
        ensures row { IsRow (moves_of self.now.table state) }
    {
        self.table.moves(state)
    }

    /// The state to which a state's move by the symbol leads, and 0 where it has none.
    pub fn step(&self, state: u32, symbol: u32) -> u32
        ensures step { result ≡ step self.now.table state symbol }
        ensures within { result ≤ length self.now.table.rows }
    {
        self.table.step(state, symbol)
    }

    /// Whether a plain automaton accepts the word.
    pub fn accepts(&self, w: &Word) -> bool
        requires { (n : ℕ) × (self.now.alphabet ≡ Plain n) }
        ensures { IsTrue result ↔ Accepts self.now w.now }
    {
        let mut state = self.table.initial();
        for letter in w.letters() {
            state = self.table.step(state, u32::from(letter.number()));
        }
        self.table.is_accepting(state)
    }

    /// Whether an automaton of pairs accepts the pair of words over its generators.
    pub fn accepts_pair(&self, u: &Word, v: &Word) -> bool
        requires alphabet { (n : ℕ) × (self.now.alphabet ≡ Pair n) }
        requires first { IsOver (generators self.now.alphabet) u.now }
        requires second { IsOver (generators self.now.alphabet) v.now }
        ensures { IsTrue result ↔ AcceptsPair self.now u.now v.now }
    {
        let symbols = PairSymbols {
            n: self.alphabet.generators(),
        };
        let padding = symbols.padding();
        let (first, second) = (u.letters(), v.letters());
        let mut state = self.table.initial();
        for place in 0..first.len().max(second.len()) {
            let (x, y) = (
                number_at(first, place, padding),
                number_at(second, place, padding),
            );
            state = self.table.step(state, symbols.symbol(x, y));
        }
        self.table.is_accepting(state)
    }

    /// The same automaton.
    pub fn copy(&self, alloc: Global) -> Result<Fsa, Memory>
        ensures { IfOk result (λ fsa. fsa ≡ self.now) }
    {
        let table = self.table.copy(alloc)?;
        Ok(Fsa::new(self.alphabet, table))
    }
}

/// The number of the letter at a place, and that of the padding past the word's end.
fn number_at(letters: &[Letter], place: usize, padding: u32) -> u32
    ensures { result ≡ get_or letters.now place padding }
{
    match letters.get(place) {
        Some(letter) => u32::from(letter.number()),
        None => padding,
    }
}
