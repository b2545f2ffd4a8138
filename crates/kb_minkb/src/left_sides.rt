//! The left sides that a word acceptor has.

ghost use Rattle.std.specs.Prelude.{◌≡◌, ◌↔◌, ℕ, List, Err, IsOk, IfOk};
ghost use Rattle.std.proofs.Common.{rules};
ghost use Rattle.kb_fsa.specs.Language.{Accepts, generators};
ghost use Rattle.kb_fsa.specs.Canonical.{IsCanonical};
ghost use Rattle.kb_fsa.specs.declared.alphabet.Alphabet.TheVariants.{Plain};
ghost use Rattle.kb_explore.specs.declared.det.Det.TheVariants.{TooManyStates};
ghost use Rattle.kb_minkb.specs.LeftSides.{AcceptsEachState, CountedMinred, IsLeftSide};
ghost use Rattle.kb_minkb.specs.LeftMachine.{left_sides, next_place, place_of};

use crate::place::LeftPlace;
use kb_explore::{Det, Machine, explore};
use kb_fsa::Fsa;
use kb_fsamin::canonical;
use kb_word::Memory;
use std::alloc::Global;

/// The canonical automaton of the left sides: of the words that the acceptor doesn't accept, but accepts without their
/// first letter, and without their last.
pub fn minred(alloc: Global, acceptor: &Fsa, limit: u32) -> Result<Fsa, Det>
    requires plain { (n : ℕ) × (acceptor.now.alphabet ≡ Plain n) }
    ensures language { AcceptsEachState acceptor.now
        → IfOk result (λ minred. (w : List ℕ) → Accepts minred w ↔ IsLeftSide acceptor.now w) }
    ensures canonical { IfOk result (λ minred. IsCanonical minred.table) }
    ensures alphabet { IfOk result (λ minred. minred.alphabet ≡ acceptor.now.alphabet) }
    ensures few { IsOk result → ¬ CountedMinred acceptor.now limit }
    ensures many { (most : ℕ) → result ≡ Err (TooManyStates most)
        → (most ≡ limit) × CountedMinred acceptor.now limit }
{
    let alphabet = acceptor.alphabet();
    let machine = LeftSides { acceptor };
    let exploration = explore(alloc, &machine, limit)?;
    let left_sides = Fsa::new(alphabet, exploration.table);
    Ok(canonical(alloc, &left_sides)?)
}

/// The machine that leads each word to its place; left sides are accepted.
#[derive(Drop)]
struct LeftSides<'a> {
    /// The word acceptor.
    acceptor: &'a Fsa,
}

impl Machine for LeftSides<'_> {
    type State = LeftPlace;

    ghost machine = { λ it. left_sides it.acceptor.now };

    ghost symbols = { λ it. generators it.acceptor.now.alphabet };

    ghost same_state = { Prim.search rules };

    fn start(&self, _alloc: Global) -> Result<Option<LeftPlace>, Memory> {
        Ok(Some(LeftPlace::Start))
    }

    fn moves(&self, alloc: Global, place: &LeftPlace) -> Result<Vec<(u32, LeftPlace)>, Memory> {
        let mut moves = Vec::new(alloc);
        for letter in 1..u32::from(self.acceptor.alphabet().generators()) + 1 {
            if let Some(next) = next_place(self.acceptor, *place, letter) {
                moves.push((letter, next))?;
            }
        }
        Ok(moves)
    }

    fn accepts(&self, place: &LeftPlace) -> bool {
        matches!(place, LeftPlace::End)
    }
}

/// The place of a word with the letter behind it, where the word has this place.
pub(crate) fn next_place(acceptor: &Fsa, place: LeftPlace, letter: u32) -> Option<LeftPlace>
    ensures { result ≡ next_place acceptor.now.table place letter }
{
    match place {
        LeftPlace::Start => {
            let initial = acceptor.initial();
            place_of(acceptor.step(initial, letter), initial)
        }
        LeftPlace::Inside { own, behind } => {
            place_of(acceptor.step(own, letter), acceptor.step(behind, letter))
        }
        LeftPlace::End => None,
    }
}

/// The place of a word after which the acceptor has the first state, and without its first letter the second; 0 is
/// none.
fn place_of(own: u32, behind: u32) -> Option<LeftPlace>
    ensures { result ≡ place_of own behind }
{
    match (own, behind) {
        (_, 0) => None,
        (0, _) => Some(LeftPlace::End),
        _ => Some(LeftPlace::Inside { own, behind }),
    }
}
