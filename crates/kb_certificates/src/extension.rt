//! Certificates N6: accepted extensions to which a multiplier doesn't lead.

ghost use Rattle.std.specs.Prelude.{◌≡◌, ◌<◌, ◌≤◌, IfOk, IfSome, IfNone};
ghost use Rattle.std.proofs.lemmas.Bool.{eqb-true};
ghost use Rattle.kb_structure.specs.Certificates.{MissingExtension};
ghost use Rattle.kb_structure.specs.StructureOf.{FitTogether, OfAutomata};
ghost use Rattle.kb_certificates.specs.First.{HasNone, IsFirstWord};
ghost use Rattle.kb_certificates.specs.Followers.{own_pair};

use crate::automata::Automata;
use crate::cascade::Follower;
use crate::least::least_word;
use kb_draw::{Crew, Search, first_found};
use kb_fsa::{Fsa, PairSymbols};
use kb_io::Gate;
use kb_word::{Letter, Memory, Word};
use std::alloc::Global;
use std::sync::Wait;
use std::thread::Threads;

/// Along the acceptor's words, the multiplier's state after the pair of the word with itself.
#[derive(Drop)]
struct OwnPair<'a> {
    acceptor: &'a Fsa,
    multiplier: &'a Fsa,
    symbols: PairSymbols,
    x: u32,
    ghost letter: { (0 < x) × (x ≤ symbols.n) },
}

impl<'a> Follower for OwnPair<'a> {
    type State = u32;

    ghost follower = { λ it.
        own_pair it.symbols.n it.acceptor.now.table it.multiplier.now.table it.x };

    fn start(&self) -> u32 {
        self.multiplier.initial()
    }

    fn next(&self, _leader: u32, pair: &u32, letter: u32) -> u32 {
        if letter > 0 && letter <= u32::from(self.symbols.n) {
            self.multiplier
                .step(*pair, self.symbols.symbol(letter, letter))
        } else {
            0
        }
    }

    fn accepts(&self, leader: u32, pair: &u32) -> bool {
        let extended = self.acceptor.step(leader, self.x);
        let symbol = self.symbols.symbol(self.symbols.padding(), self.x);
        let multiplied = self.multiplier.step(*pair, symbol);
        self.acceptor.is_accepting(extended) && !self.multiplier.is_accepting(multiplied)
    }

    ghost same_state = { eqb-true };
}

/// The multipliers, which are searched for extensions to which they don't lead.
#[derive(Drop)]
struct Extensions<'a> {
    automata: Automata<'a>,
}

/// A place is a generator's.
impl<'a> Search for Extensions<'a> {
    ghost use Rattle.std.specs.Prelude.{length};
    ghost use Rattle.kb_structure.specs.Certificates.{MissingExtension};
    ghost use Rattle.kb_structure.specs.StructureOf.{OfAutomata};
    ghost use Rattle.kb_certificates.specs.Places.{HasWord, LacksWord};

    type Found = (Letter, Word);

    ghost places = { λ it. length it.automata.multipliers.now };

    ghost has = { λ it place certificate.
        OfAutomata it.automata.acceptor.now it.automata.multipliers.now (λ structure.
        HasWord (MissingExtension structure) place certificate.0 certificate.1) };

    ghost lacks = { λ it place.
        OfAutomata it.automata.acceptor.now it.automata.multipliers.now (λ structure.
        LacksWord (MissingExtension structure) place) };

    fn places(&self) -> u64 {
        self.automata.places()
    }

    fn look(&self, alloc: Global, place: u64) -> Result<Option<(Letter, Word)>, Memory> {
        let (x, multiplier) = self.automata.at(place);
        let acceptor = self.automata.acceptor;
        let n = acceptor.alphabet().generators();
        let follower = OwnPair {
            acceptor,
            multiplier,
            symbols: PairSymbols { n },
            x: u32::from(x.number()),
        };
        match least_word(alloc, acceptor, &follower)? {
            Some(word) => Ok(Some((x, word))),
            None => Ok(None),
        }
    }
}

/// The first generator x with a word that is accepted with x after it, where the multiplier of x doesn't lead there
/// from the word; and the least such word.
pub fn missing_extension<G: Gate, T: Threads + Wait + Sync>(
    rt: &T,
    alloc: Global,
    acceptor: &Fsa,
    multipliers: &[Fsa],
    crew: &Crew<'_, G>,
) -> Result<Option<(Letter, Word)>, Memory>
    requires fit { FitTogether acceptor.now multipliers.now }
    ensures found { IfOk result (λ found. IfSome found (λ certificate.
        OfAutomata acceptor.now multipliers.now (λ structure.
        IsFirstWord (MissingExtension structure) certificate.0 certificate.1))) }
    ensures none { IfOk result (λ found. IfNone found
        (OfAutomata acceptor.now multipliers.now (λ structure.
        HasNone (MissingExtension structure)))) }
{
    let automata = Automata {
        acceptor,
        multipliers,
    };
    first_found(rt, alloc, &Extensions { automata }, crew)
}
