//! Alphabets: the letters of words, or the symbols of padded pairs of words.

ghost use Rattle.std.specs.Prelude.{◌≡◌, ◌≤◌};
ghost use Rattle.kb_fsa.specs.Language.{generators, symbols};

use crate::pair_symbols::PairSymbols;

/// What an automaton reads.
#[derive(Clone, Copy, Debug, PartialEq, Eq)]
pub enum Alphabet {
    /// Words over so many generators; a letter is a symbol.
    Plain(u16),
    /// Pairs of words over so many generators, whose symbols are those of `PairSymbols`.
    Pair(u16),
}

impl Alphabet {
    /// How many generators there are.
    pub fn generators(&self) -> u16
        ensures { result ≡ generators self.now }
    {
        match self {
            Alphabet::Plain(n) => *n,
            Alphabet::Pair(n) => *n,
        }
    }

    /// How many symbols there are, which are numbered from 1. The pair of two paddings is none.
    pub fn symbols(&self) -> u32
        requires { generators self.now ≤ 65534 }
        ensures { result ≡ symbols self.now }
    {
        match self {
            Alphabet::Plain(n) => u32::from(*n),
            Alphabet::Pair(n) => PairSymbols { n: *n }.count(),
        }
    }
}
