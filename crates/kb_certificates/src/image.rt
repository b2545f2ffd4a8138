//! Certificates N4: accepted words without an image.

ghost use Rattle.std.specs.Prelude.{IfOk};
ghost use Rattle.std.proofs.lemmas.Bool.{eqb-true};
ghost use Rattle.kb_structure.specs.StructureOf.{FitTogether};
ghost use Rattle.kb_certificates.specs.Images.{ImagesSay};
ghost use Rattle.kb_certificates.specs.Followers.{other_state};

use crate::automata::Automata;
use crate::cascade::Follower;
use crate::least::least_word;
use kb_draw::{Crew, Search, first_found};
use kb_fsa::Fsa;
use kb_fsadet::{Det, exists};
use kb_io::Gate;
use kb_word::{Letter, Memory, Word};
use std::alloc::Global;
use std::sync::Wait;
use std::thread::Threads;

/// Along the acceptor's words, another automaton's state.
#[derive(Drop)]
struct OtherState<'a> {
    acceptor: &'a Fsa,
    other: &'a Fsa,
}

impl<'a> Follower for OtherState<'a> {
    type State = u32;

    ghost follower = { λ it. other_state it.acceptor.now.table it.other.now.table };

    fn start(&self) -> u32 {
        self.other.initial()
    }

    fn next(&self, _leader: u32, beside: &u32, letter: u32) -> u32 {
        self.other.step(*beside, letter)
    }

    fn accepts(&self, leader: u32, beside: &u32) -> bool {
        self.acceptor.is_accepting(leader) && !self.other.is_accepting(*beside)
    }

    ghost same_state = { eqb-true };
}

/// Whether each accepted word has an image under each generator.
#[derive(Debug, Drop)]
pub enum Images {
    /// Each has.
    Given,
    /// The first generator whose multiplier relates an accepted word to none, and the least such word.
    Lacking { x: Letter, word: Word },
    /// The first words of this generator's multiplier have more sets of states than the limit, and no certificate comes
    /// before that.
    TooManyStates { x: Letter },
}

/// The multipliers, which are searched for accepted words without an image.
#[derive(Drop)]
struct WithoutImage<'a> {
    automata: Automata<'a>,
    limit: u32,
}

/// A place is a generator's. It has what is answered where each accepted word has images under the generators before.
impl<'a> Search for WithoutImage<'a> {
    ghost use Rattle.std.specs.Prelude.{length};
    ghost use Rattle.kb_certificates.specs.Images.{AreGivenBefore, GivesImages, ImagesSay};

    type Found = Images;

    ghost places = { λ it. length it.automata.multipliers.now };

    ghost has = { λ it place images.
        AreGivenBefore it.automata.acceptor.now it.automata.multipliers.now it.limit place
        → ImagesSay it.automata.acceptor.now it.automata.multipliers.now it.limit images };

    ghost lacks = { λ it place.
        GivesImages it.automata.acceptor.now it.automata.multipliers.now it.limit place };

    fn places(&self) -> u64 {
        self.automata.places()
    }

    fn look(&self, alloc: Global, place: u64) -> Result<Option<Images>, Memory> {
        let (x, multiplier) = self.automata.at(place);
        let acceptor = self.automata.acceptor;
        let first_words = match exists(alloc, multiplier, self.limit) {
            Ok(first_words) => first_words,
            Err(Det::TooManyStates { .. }) => return Ok(Some(Images::TooManyStates { x })),
            Err(Det::Memory) => return Err(Memory),
        };
        let follower = OtherState {
            acceptor,
            other: &first_words,
        };
        match least_word(alloc, acceptor, &follower)? {
            Some(word) => Ok(Some(Images::Lacking { x, word })),
            None => Ok(None),
        }
    }
}

/// Whether each accepted word has an image under each generator. The first words of each generator's multiplier are
/// counted before its words without an image are looked for.
pub fn check_images<G: Gate, T: Threads + Wait + Sync>(
    rt: &T,
    alloc: Global,
    acceptor: &Fsa,
    multipliers: &[Fsa],
    limit: u32,
    crew: &Crew<'_, G>,
) -> Result<Images, Memory>
    requires fit { FitTogether acceptor.now multipliers.now }
    ensures { IfOk result (ImagesSay acceptor.now multipliers.now limit) }
{
    let automata = Automata {
        acceptor,
        multipliers,
    };
    match first_found(rt, alloc, &WithoutImage { automata, limit }, crew)? {
        Some(images) => Ok(images),
        None => Ok(Images::Given),
    }
}
