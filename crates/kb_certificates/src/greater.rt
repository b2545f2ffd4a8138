//! Certificates N7: images that are greater than the word with the generator after it.

ghost use Rattle.std.specs.Prelude.{◌≡◌, List, IfOk, IfSome, IfNone};
ghost use Rattle.std.proofs.Common.{rules};
ghost use Rattle.kb_word.specs.Words.{Pair as Sides};
ghost use Rattle.kb_word.specs.declared.word_order.WordOrder.TheVariants.{ShortLex};
ghost use Rattle.kb_structure.specs.Certificates.{ImageNotLeast};
ghost use Rattle.kb_structure.specs.StructureOf.{FitTogether, structure_of};
ghost use Rattle.kb_certificates.specs.First.{HasNoPair, IsFirstPair};
ghost use Rattle.kb_certificates.specs.Followers.{compared, comparing, is_lower, lengthened, outlasted};

use crate::automata::Automata;
use crate::cascade::Follower;
use crate::comparison::Comparison;
use crate::least::least_led_pair;
use kb_draw::{Crew, Search, first_found};
use kb_fsa::{Fsa, PairSymbols};
use kb_io::Gate;
use kb_word::{Letter, Memory, Word};
use std::alloc::Global;
use std::sync::Wait;
use std::thread::Threads;

/// Along a multiplier's pairs, how the first word with the generator after it compares with the second.
#[derive(Drop)]
struct Comparing<'a> {
    multiplier: &'a Fsa,
    symbols: PairSymbols,
    x: u32,
}

impl<'a> Follower for Comparing<'a> {
    type State = Comparison;

    ghost follower = { λ it. comparing it.symbols.n it.x it.multiplier.now.table };

    fn start(&self) -> Comparison {
        Comparison::Same
    }

    fn next(&self, _leader: u32, comparison: &Comparison, symbol: u32) -> Comparison {
        let first = self.symbols.first(symbol);
        let second = self.symbols.second(symbol);
        if second == self.symbols.padding() {
            Comparison::Later
        } else if first == self.symbols.padding() {
            outlasted(self.x, *comparison, second)
        } else {
            lengthened(*comparison, first, second)
        }
    }

    fn accepts(&self, leader: u32, comparison: &Comparison) -> bool {
        self.multiplier.is_accepting(leader) && *comparison == Comparison::Lower
    }

    ghost same_state = { Prim.search rules };
}

/// How the words compare after a letter of each.
fn lengthened(comparison: Comparison, first: u32, second: u32) -> Comparison
    ensures { result ≡ lengthened comparison first second }
{
    match comparison {
        Comparison::Same if first < second => Comparison::Earlier,
        Comparison::Same if first > second => Comparison::Later,
        _ => comparison,
    }
}

/// How they compare after a letter of the second, where the first has ended.
fn outlasted(x: u32, comparison: Comparison, second: u32) -> Comparison
    ensures { result ≡ outlasted x comparison second }
{
    match comparison {
        Comparison::Same if x >= second => Comparison::Reached,
        Comparison::Later => Comparison::Reached,
        _ => Comparison::Lower,
    }
}

/// The multipliers, which are searched for images that are greater.
#[derive(Drop)]
struct GreaterImages<'a> {
    automata: Automata<'a>,
}

/// A place is a generator's.
impl<'a> Search for GreaterImages<'a> {
    ghost use Rattle.std.specs.Prelude.{List, length};
    ghost use Rattle.kb_word.specs.Words.{Pair as Sides};
    ghost use Rattle.kb_word.specs.declared.word_order.WordOrder.TheVariants.{ShortLex};
    ghost use Rattle.kb_structure.specs.Certificates.{ImageNotLeast};
    ghost use Rattle.kb_structure.specs.StructureOf.{structure_of};
    ghost use Rattle.kb_certificates.specs.Places.{HasPair, LacksPair};

    type Found = (Letter, Word, Word);

    ghost places = { λ it. length it.automata.multipliers.now };

    ghost has = { λ it place certificate. (relations : List Sides) → HasPair
        (ImageNotLeast
        (structure_of ShortLex relations it.automata.acceptor.now it.automata.multipliers.now))
        place certificate.0 certificate.1 certificate.2 };

    ghost lacks = { λ it place. (relations : List Sides) → LacksPair
        (ImageNotLeast
        (structure_of ShortLex relations it.automata.acceptor.now it.automata.multipliers.now))
        place };

    fn places(&self) -> u64 {
        self.automata.places()
    }

    fn look(&self, alloc: Global, place: u64) -> Result<Option<(Letter, Word, Word)>, Memory> {
        let (x, multiplier) = self.automata.at(place);
        let n = self.automata.acceptor.alphabet().generators();
        let follower = Comparing {
            multiplier,
            symbols: PairSymbols { n },
            x: u32::from(x.number()),
        };
        match least_led_pair(alloc, multiplier, &follower)? {
            Some((first, second)) => Ok(Some((x, first, second))),
            None => Ok(None),
        }
    }
}

/// The first generator x whose multiplier relates a word to one that is greater, in the shortlex order, than the word
/// with x after it; with the least first word, and the least second word beside it.
pub fn image_not_least<G: Gate, T: Threads + Wait + Sync>(
    rt: &T,
    alloc: Global,
    acceptor: &Fsa,
    multipliers: &[Fsa],
    crew: &Crew<'_, G>,
) -> Result<Option<(Letter, Word, Word)>, Memory>
    requires fit { FitTogether acceptor.now multipliers.now }
    ensures found { IfOk result (λ found. IfSome found (λ certificate. (relations : List Sides)
        → IsFirstPair
        (ImageNotLeast (structure_of ShortLex relations acceptor.now multipliers.now))
        certificate.0 certificate.1 certificate.2)) }
    ensures none { IfOk result (λ found. IfNone found ((relations : List Sides) → HasNoPair
        (ImageNotLeast (structure_of ShortLex relations acceptor.now multipliers.now)))) }
{
    let automata = Automata {
        acceptor,
        multipliers,
    };
    first_found(rt, alloc, &GreaterImages { automata }, crew)
}
