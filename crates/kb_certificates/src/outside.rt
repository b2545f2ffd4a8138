//! Certificates N2: pairs of a multiplier with a word that isn't accepted.

ghost use Rattle.std.specs.Prelude.{◌≡◌, IfOk, IfSome, IfNone};
ghost use Rattle.std.proofs.Common.{rules};
ghost use Rattle.kb_structure.specs.Certificates.{PairOutsideAcceptor};
ghost use Rattle.kb_structure.specs.StructureOf.{FitTogether, OfAutomata};
ghost use Rattle.kb_certificates.specs.First.{HasNoPair, IsFirstPair};
ghost use Rattle.kb_certificates.specs.Followers.{after_letter, word_states};

use crate::automata::Automata;
use crate::cascade::Follower;
use crate::least::least_led_pair;
use crate::word_states::WordStates;
use kb_draw::{Crew, Search, first_found};
use kb_fsa::{Fsa, PairSymbols};
use kb_io::Gate;
use kb_word::{Letter, Memory, Word};
use std::alloc::Global;
use std::sync::Wait;
use std::thread::Threads;

/// Along a multiplier's pairs, the acceptor's states after both words.
#[derive(Drop)]
struct AcceptorStates<'a> {
    multiplier: &'a Fsa,
    acceptor: &'a Fsa,
    symbols: PairSymbols,
}

impl<'a> Follower for AcceptorStates<'a> {
    type State = WordStates;

    ghost follower = { λ it.
        word_states it.symbols.n it.multiplier.now.table it.acceptor.now.table };

    fn start(&self) -> WordStates {
        let initial = self.acceptor.initial();
        WordStates {
            first: initial,
            second: initial,
        }
    }

    fn next(&self, _leader: u32, words: &WordStates, symbol: u32) -> WordStates {
        WordStates {
            first: self.after_letter(words.first, self.symbols.first(symbol)),
            second: self.after_letter(words.second, self.symbols.second(symbol)),
        }
    }

    fn accepts(&self, leader: u32, words: &WordStates) -> bool {
        let first = self.acceptor.is_accepting(words.first);
        let second = self.acceptor.is_accepting(words.second);
        self.multiplier.is_accepting(leader) && !(first && second)
    }

    ghost same_state = { Prim.search rules };
}

impl<'a> AcceptorStates<'a> {
    /// Where the acceptor is after a letter of one word; padding is none.
    fn after_letter(&self, state: u32, letter: u32) -> u32
        ensures { result
            ≡ after_letter self.now.symbols.n self.now.acceptor.now.table state letter }
    {
        if letter == self.symbols.padding() {
            state
        } else {
            self.acceptor.step(state, letter)
        }
    }
}

/// The multipliers, which are searched for pairs with a word that isn't accepted.
#[derive(Drop)]
struct PairsOutside<'a> {
    automata: Automata<'a>,
}

/// A place is a generator's.
impl<'a> Search for PairsOutside<'a> {
    ghost use Rattle.std.specs.Prelude.{length};
    ghost use Rattle.kb_structure.specs.Certificates.{PairOutsideAcceptor};
    ghost use Rattle.kb_structure.specs.StructureOf.{OfAutomata};
    ghost use Rattle.kb_certificates.specs.Places.{HasPair, LacksPair};

    type Found = (Letter, Word, Word);

    ghost places = { λ it. length it.automata.multipliers.now };

    ghost has = { λ it place certificate.
        OfAutomata it.automata.acceptor.now it.automata.multipliers.now (λ structure.
        HasPair (PairOutsideAcceptor structure) place certificate.0 certificate.1
        certificate.2) };

    ghost lacks = { λ it place.
        OfAutomata it.automata.acceptor.now it.automata.multipliers.now (λ structure.
        LacksPair (PairOutsideAcceptor structure) place) };

    fn places(&self) -> u64 {
        self.automata.places()
    }

    fn look(&self, alloc: Global, place: u64) -> Result<Option<(Letter, Word, Word)>, Memory> {
        let (x, multiplier) = self.automata.at(place);
        let acceptor = self.automata.acceptor;
        let n = acceptor.alphabet().generators();
        let follower = AcceptorStates {
            multiplier,
            acceptor,
            symbols: PairSymbols { n },
        };
        match least_led_pair(alloc, multiplier, &follower)? {
            Some((first, second)) => Ok(Some((x, first, second))),
            None => Ok(None),
        }
    }
}

/// The first generator whose multiplier relates a word to one, and not both are accepted; with the least first word,
/// and the least second word beside it.
pub fn pair_outside_acceptor<G: Gate, T: Threads + Wait + Sync>(
    rt: &T,
    alloc: Global,
    acceptor: &Fsa,
    multipliers: &[Fsa],
    crew: &Crew<'_, G>,
) -> Result<Option<(Letter, Word, Word)>, Memory>
    requires fit { FitTogether acceptor.now multipliers.now }
    ensures found { IfOk result (λ found. IfSome found (λ certificate.
        OfAutomata acceptor.now multipliers.now (λ structure.
        IsFirstPair (PairOutsideAcceptor structure) certificate.0 certificate.1 certificate.2))) }
    ensures none { IfOk result (λ found. IfNone found
        (OfAutomata acceptor.now multipliers.now (λ structure.
        HasNoPair (PairOutsideAcceptor structure)))) }
{
    let automata = Automata {
        acceptor,
        multipliers,
    };
    first_found(rt, alloc, &PairsOutside { automata }, crew)
}
