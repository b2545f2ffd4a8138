//! The least second word that isn't a given one.

ghost use Rattle.std.specs.Prelude.{◌≡◌, ℕ, List, IfOk, IfSome, IfNone};
ghost use Rattle.std.proofs.Common.{rules};
ghost use Rattle.kb_word.specs.Relations.{IsOver};
ghost use Rattle.kb_fsa.specs.Language.{generators};
ghost use Rattle.kb_fsa.specs.declared.alphabet.Alphabet.TheVariants.{Pair};
ghost use Rattle.kb_leastpair.specs.LeastPair.{IsLeastWord};
ghost use Rattle.kb_certificates.specs.First.{IsOther};
ghost use Rattle.kb_certificates.specs.Followers.{agreed, other_second};

use crate::agreement::Agreement;
use crate::cascade::{Follower, cascade_product};
use kb_fsa::{Fsa, PairSymbols};
use kb_leastpair::least_second;
use kb_word::{Letter, Memory, Word};
use std::alloc::Global;

/// Along pairs, how the second word agrees with a given one.
#[derive(Drop)]
struct OtherSecond<'a> {
    pairs: &'a Fsa,
    symbols: PairSymbols,
    second: &'a Word,
}

impl<'a> Follower for OtherSecond<'a> {
    type State = Agreement;

    ghost follower = { λ it. other_second it.symbols.n it.pairs.now.table it.second.now };

    fn start(&self) -> Agreement {
        Agreement::Front(0)
    }

    fn next(&self, _leader: u32, agreement: &Agreement, symbol: u32) -> Agreement {
        if self.symbols.pads_second(symbol) {
            *agreement
        } else {
            let letter = self.symbols.second(symbol);
            agreed(self.second.letters(), *agreement, letter)
        }
    }

    fn accepts(&self, leader: u32, agreement: &Agreement) -> bool {
        self.pairs.is_accepting(leader) && *agreement != Agreement::Front(self.second.len())
    }

    ghost same_state = { Prim.search rules };
}

/// How they agree after a letter more.
fn agreed(word: &[Letter], agreement: Agreement, letter: u32) -> Agreement
    ensures { result ≡ agreed word.now agreement letter }
{
    match agreement {
        Agreement::Front(place)
            if place < word.len() && u32::from(word[place].number()) == letter => {
            Agreement::Front(place + 1)
        }
        _ => Agreement::Apart,
    }
}

/// The least second word that an automaton of pairs accepts beside the first word, another than the given one.
pub(crate) fn least_other(
    alloc: Global,
    pairs: &Fsa,
    first: &Word,
    second: &Word,
) -> Result<Option<Word>, Memory>
    requires alphabet { pairs.now.alphabet ≡ Pair (generators pairs.now.alphabet) }
    requires first { IsOver (generators pairs.now.alphabet) first.now }
    ensures found { IfOk result (λ found. IfSome found
        (IsLeastWord (IsOther pairs.now first.now second.now))) }
    ensures none { IfOk result (λ found. IfNone found
        ((other : List ℕ) → ¬ IsOther pairs.now first.now second.now other)) }
{
    let n = pairs.alphabet().generators();
    let follower = OtherSecond {
        pairs,
        symbols: PairSymbols { n },
        second,
    };
    let others = cascade_product(alloc, pairs, &follower)?;
    least_second(alloc, &others, first)
}
