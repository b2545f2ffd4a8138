//! Certificates N5: words with two images.

ghost use Rattle.std.specs.Prelude.{◌≡◌, List, ℕ, IfOk, IfSome, IfNone};
ghost use Rattle.kb_fsa.specs.Language.{generators};
ghost use Rattle.kb_fsa.specs.declared.alphabet.Alphabet.TheVariants.{Pair};
ghost use Rattle.kb_structure.specs.Certificates.{TwoImages};
ghost use Rattle.kb_structure.specs.StructureOf.{FitTogether, OfAutomata};
ghost use Rattle.kb_certificates.specs.First.{HasNoTriple, HasTwo, IsFirstTriple, IsLeastTriple};

use crate::automata::Automata;
use crate::later_pairs::least_later_first;
use crate::other::least_other;
use kb_draw::{Crew, Search, first_found};
use kb_fsa::Fsa;
use kb_io::Gate;
use kb_leastpair::least_second;
use kb_word::{Letter, Memory, Word};
use std::alloc::Global;
use std::sync::Wait;
use std::thread::Threads;

/// The multipliers, which are searched for words with two images.
#[derive(Drop)]
struct WordsWithTwo<'a> {
    automata: Automata<'a>,
}

/// A place is a generator's.
impl<'a> Search for WordsWithTwo<'a> {
    ghost use Rattle.std.specs.Prelude.{length};
    ghost use Rattle.kb_structure.specs.Certificates.{TwoImages};
    ghost use Rattle.kb_structure.specs.StructureOf.{OfAutomata};
    ghost use Rattle.kb_certificates.specs.Places.{HasTriple, LacksTriple};

    type Found = (Letter, Word, Word, Word);

    ghost places = { λ it. length it.automata.multipliers.now };

    ghost has = { λ it place certificate.
        OfAutomata it.automata.acceptor.now it.automata.multipliers.now (λ structure.
        HasTriple (TwoImages structure) place certificate.0 certificate.1 certificate.2
        certificate.3) };

    ghost lacks = { λ it place.
        OfAutomata it.automata.acceptor.now it.automata.multipliers.now (λ structure.
        LacksTriple (TwoImages structure) place) };

    fn places(&self) -> u64 {
        self.automata.places()
    }

    fn look(
        &self,
        alloc: Global,
        place: u64,
    ) -> Result<Option<(Letter, Word, Word, Word)>, Memory> {
        let (x, multiplier) = self.automata.at(place);
        match least_two(alloc, multiplier)? {
            Some((word, image, other)) => Ok(Some((x, word, image, other))),
            None => Ok(None),
        }
    }
}

/// The first generator whose multiplier relates a word to two; with the least such word, its least image, and the next.
pub fn two_images<G: Gate, T: Threads + Wait + Sync>(
    rt: &T,
    alloc: Global,
    acceptor: &Fsa,
    multipliers: &[Fsa],
    crew: &Crew<'_, G>,
) -> Result<Option<(Letter, Word, Word, Word)>, Memory>
    requires fit { FitTogether acceptor.now multipliers.now }
    ensures found { IfOk result (λ found. IfSome found (λ certificate.
        OfAutomata acceptor.now multipliers.now (λ structure.
        IsFirstTriple (TwoImages structure) certificate.0 certificate.1 certificate.2
        certificate.3))) }
    ensures none { IfOk result (λ found. IfNone found
        (OfAutomata acceptor.now multipliers.now (λ structure.
        HasNoTriple (TwoImages structure)))) }
{
    let automata = Automata {
        acceptor,
        multipliers,
    };
    first_found(rt, alloc, &WordsWithTwo { automata }, crew)
}

/// The least first word beside which two second words are accepted, the least of these, and the next.
fn least_two(alloc: Global, pairs: &Fsa) -> Result<Option<(Word, Word, Word)>, Memory>
    requires { pairs.now.alphabet ≡ Pair (generators pairs.now.alphabet) }
    ensures found { IfOk result (λ found. IfSome found (λ words.
        IsLeastTriple (HasTwo pairs.now) words.0 words.1 words.2)) }
    ensures none { IfOk result (λ found. IfNone found
        ((first second other : List ℕ) → ¬ HasTwo pairs.now first second other)) }
{
    let Some(word) = least_later_first(alloc, pairs)? else {
        return Ok(None);
    };
    let Some(image) = least_second(alloc, pairs, &word)? else {
        return Ok(None);
    };
    match least_other(alloc, pairs, &word, &image)? {
        Some(other) => Ok(Some((word, image, other))),
        None => Ok(None),
    }
}
