//! Which word of a pair has ended, and the symbols that may follow.

ghost use Rattle.std.specs.Prelude.{◌≡◌, ◌≤◌};
ghost use Rattle.kb_fsa.specs.Language.{generators};
ghost use Rattle.kb_fsa.specs.EndedWords.{ended_after, ended_next, first_after, stride_after, word_padded};

use crate::alphabet::Alphabet;
use crate::pair_symbols::PairSymbols;

/// Which word of a pair has ended, so that its padding has begun.
#[derive(Clone, Copy, Debug, PartialEq, Eq, Hash)]
pub enum Ended {
    /// Neither.
    Neither,
    /// The first.
    First,
    /// The second.
    Second,
}

impl Ended {
    /// Which word has ended after the symbol; `None` where that is none of the alphabet, or has a letter of a
    /// word that has ended.
    pub fn after(self, alphabet: Alphabet, symbol: u32) -> Option<Ended>
        requires { generators alphabet ≤ 65534 }
        ensures { result ≡ ended_after alphabet self symbol }
    {
        let is_symbol = symbol > 0 && symbol <= alphabet.symbols();
        match alphabet {
            Alphabet::Plain(_) => is_symbol.then_some(Ended::Neither),
            Alphabet::Pair(n) if is_symbol => self.and_then(word_padded(n, symbol)),
            Alphabet::Pair(_) => None,
        }
    }

    /// The least symbol that may follow, and by how much the others are apart.
    pub fn progression(self, alphabet: Alphabet) -> (u32, u32)
        requires { generators alphabet ≤ 65534 }
        ensures first { result.0 ≡ first_after alphabet self }
        ensures stride { result.1 ≡ stride_after alphabet self }
    {
        match (alphabet, self) {
            (Alphabet::Pair(n), Ended::First) => {
                let symbols = PairSymbols { n };
                (symbols.symbol(symbols.padding(), 1), 1)
            }
            (Alphabet::Pair(n), Ended::Second) => {
                let symbols = PairSymbols { n };
                (symbols.symbol(1, symbols.padding()), symbols.padding())
            }
            _ => (1, 1),
        }
    }

    /// Which word has ended, where this one has and then a symbol pads `next`.
    fn and_then(self, next: Ended) -> Option<Ended>
        ensures { result ≡ ended_next self next }
    {
        (self == Ended::Neither || self == next).then_some(next)
    }
}

/// Which word the symbol of a pair pads.
fn word_padded(n: u16, symbol: u32) -> Ended
    requires { n ≤ 65534 }
    ensures { result ≡ word_padded n symbol }
{
    let symbols = PairSymbols { n };
    if symbols.pads_first(symbol) {
        Ended::First
    } else if symbols.pads_second(symbol) {
        Ended::Second
    } else {
        Ended::Neither
    }
}
