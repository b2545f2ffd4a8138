//! The symbols of pairs of letters.

ghost use Rattle.std.specs.Prelude.{◌≡◌, ◌+◌, ◌<◌, ◌≤◌};
ghost use Rattle.kb_fsa.specs.PairSymbols.{
  first_letter,
  pair_symbol,
  pair_symbols,
  pads_first,
  pads_second,
  second_letter,
};

/// The symbols of pairs over n generators. Each of the two is a letter, with a number from 1 to n, or the padding,
/// with number n + 1; the pair (i, j) is the symbol (n + 1)(i - 1) + j.
#[derive(Clone, Copy, Debug, PartialEq, Eq)]
pub struct PairSymbols {
    /// How many generators there are.
    pub n: u16,
    pub ghost in_range: { n ≤ 65534 },
}

impl PairSymbols {
    /// The number of the padding.
    pub fn padding(self) -> u32
        ensures { result ≡ self.n + 1 }
    {
        u32::from(self.n) + 1
    }

    /// How many symbols there are. The pair of two paddings is none; it would be the next.
    pub fn count(self) -> u32
        ensures { result ≡ pair_symbols self.n }
    {
        self.padding() * self.padding() - 1
    }

    /// The symbol of a pair.
    pub fn symbol(self, i: u32, j: u32) -> u32
        requires positive { 0 < i }
        requires first { i ≤ self.n + 1 }
        requires second { j ≤ self.n + 1 }
        ensures { result ≡ pair_symbol self.n i j }
    {
        self.padding() * (i - 1) + j
    }

    /// The first letter of a symbol. 0, which is no symbol, is taken as 1.
    pub fn first(self, symbol: u32) -> u32
        ensures { result ≡ first_letter self.n symbol }
    {
        symbol.saturating_sub(1) / self.padding() + 1
    }

    /// The second letter of a symbol. 0, which is no symbol, is taken as 1.
    pub fn second(self, symbol: u32) -> u32
        ensures { result ≡ second_letter self.n symbol }
    {
        symbol.saturating_sub(1) % self.padding() + 1
    }

    /// Whether the first letter of the symbol is the padding.
    pub fn pads_first(self, symbol: u32) -> bool
        ensures { result ≡ pads_first self.n symbol }
    {
        self.first(symbol) == self.padding()
    }

    /// Whether the second letter of the symbol is the padding.
    pub fn pads_second(self, symbol: u32) -> bool
        ensures { result ≡ pads_second self.n symbol }
    {
        self.second(symbol) == self.padding()
    }
}
