//! Texts of symbols.

ghost use Rattle.std.specs.Prelude.{◌≡◌};

use std::marker::Model;

/// A text: the numbers of its symbols, from left to right.
#[derive(Debug, Drop)]
pub struct Symbols {
    symbols: Vec<u32>,
}

impl Model for Symbols {
    ghost use Rattle.std.specs.Prelude.{ℕ, List};

    ghost Value = { List ℕ };

    ghost view = { λ text. text.symbols.items };
}

impl Symbols {
    /// The text of these symbols.
    pub fn from_vec(symbols: Vec<u32>) -> Symbols
        ensures { result ≡ symbols.items }
    {
        Symbols { symbols }
    }

    /// The symbols, from left to right.
    pub fn as_slice(&self) -> &[u32]
        ensures { result.now ≡ self.now }
    {
        self.symbols.as_slice()
    }
}
