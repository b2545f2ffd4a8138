//! The complement.

ghost use Rattle.std.specs.Prelude.{◌≡◌, ℕ, Err, IsOk, IfOk};
ghost use Rattle.std.proofs.Common.{rules};
ghost use Rattle.kb_fsa.specs.Language.{symbols};
ghost use Rattle.kb_fsa.specs.Counted.{CountedNot};
ghost use Rattle.kb_explore.specs.declared.det.Det.TheVariants.{TooManyStates};
ghost use Rattle.kb_fsabool.specs.Answers.{IsComplement};
ghost use Rattle.kb_fsabool.specs.Complements.{complement};

use crate::place::Place;
use kb_explore::{Det, Machine, explore};
use kb_fsa::{Ended, Fsa};
use kb_word::Memory;
use std::alloc::Global;

/// An automaton of the words, or the padded texts of pairs, that the automaton doesn't accept.
pub fn not(alloc: Global, fsa: &Fsa, limit: u32) -> Result<Fsa, Det>
    ensures language { IfOk result (IsComplement fsa.now) }
    ensures alphabet { IfOk result (λ rest. rest.alphabet ≡ fsa.now.alphabet) }
    ensures few { IsOk result → ¬ CountedNot fsa.now limit }
    ensures many { (most : ℕ) → result ≡ Err (TooManyStates most)
        → (most ≡ limit) × CountedNot fsa.now limit }
{
    let machine = Complement { fsa };
    let exploration = explore(alloc, &machine, limit)?;
    Ok(Fsa::new(fsa.alphabet(), exploration.table))
}

/// The automaton whose texts are to be left out.
#[derive(Drop)]
struct Complement<'a> {
    fsa: &'a Fsa,
}

impl<'a> Machine for Complement<'a> {
    type State = Place;

    ghost machine = { λ it. complement it.fsa.now };

    ghost symbols = { λ it. symbols it.fsa.now.alphabet };

    ghost same_state = { Prim.search rules };

    fn start(&self, _alloc: Global) -> Result<Option<Place>, Memory> {
        let state = self.fsa.initial();
        Ok(Some(Place {
            state,
            ended: Ended::Neither,
        }))
    }

    fn moves(&self, alloc: Global, place: &Place) -> Result<Vec<(u32, Place)>, Memory> {
        let alphabet = self.fsa.alphabet();
        let last = alphabet.symbols();
        let mut moves = Vec::new(alloc);
        let (mut symbol, stride) = place.ended.progression(alphabet);
        while symbol <= last {
            if let Some(ended) = place.ended.after(alphabet, symbol) {
                let state = self.fsa.step(place.state, symbol);
                moves.push((symbol, Place { state, ended }))?;
            }
            symbol += stride;
        }
        Ok(moves)
    }

    fn accepts(&self, place: &Place) -> bool {
        !self.fsa.is_accepting(place.state)
    }
}
