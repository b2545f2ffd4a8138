//! The machine of a composite.

ghost use Rattle.std.specs.Prelude.{◌≡◌, IfOk};
ghost use Rattle.std.proofs.Common.{rules};
ghost use Rattle.kb_word.specs.Comparison.{same_from_pointwise};
ghost use Rattle.kb_fsa.specs.Language.{generators, symbols};
ghost use Rattle.kb_fsa.specs.declared.alphabet.Alphabet.TheVariants.{Pair};
ghost use Rattle.kb_compose.specs.StatePairs.{initial_pairs, state_pairs};

use crate::grouping::grouped_by_sort;
use crate::joining::moves_of_pairs;
use crate::pair_set::{PairSet, number_of};
use crate::place::Place;
use kb_explore::Machine;
use kb_fsa::{Ended, Fsa, PairSymbols};
use kb_word::Memory;
use std::alloc::Global;

/// Sets of pairs of states, of which those accept that have one of the pairs that end.
#[derive(Drop)]
pub(crate) struct StatePairs<'a> {
    /// The automaton of the first outer word and the middle one.
    pub(crate) first: &'a Fsa,
    /// The automaton of the middle word and the second outer one.
    pub(crate) second: &'a Fsa,
    /// The pairs that end.
    pub(crate) ending: PairSet,
    pub(crate) ghost pairs: { first.now.alphabet ≡ Pair (generators first.now.alphabet) },
}

impl Machine for StatePairs<'_> {
    type State = Place;

    ghost machine = { λ it. state_pairs it.first.now it.second.now it.ending };

    ghost symbols = { λ it. symbols it.first.now.alphabet };

    fn start(&self, alloc: Global) -> Result<Option<Place>, Memory> {
        let (first, second) = (self.first.initial(), self.second.initial());
        if first == 0 || second == 0 {
            return Ok(None);
        }
        let mut pairs = Vec::new(alloc);
        pairs.push(number_of(first, second))?;
        Ok(Some(Place {
            ended: Ended::Neither,
            pairs: PairSet::of(pairs),
        }))
    }

    fn moves(&self, alloc: Global, place: &Place) -> Result<Vec<(u32, Place)>, Memory> {
        let alphabet = self.first.alphabet();
        let symbols = PairSymbols {
            n: alphabet.generators(),
        };
        let (first, second) = (self.first.table(), self.second.table());
        let moves = moves_of_pairs(alloc, symbols, first, second, place.pairs.as_slice())?;
        grouped_by_sort(alloc, alphabet, place.ended, moves)
    }

    fn accepts(&self, place: &Place) -> bool {
        place
            .pairs
            .as_slice()
            .iter()
            .any(|pair| self.ending.contains(*pair))
    }

    ghost same_state = { Prim.search (rules, same_from_pointwise) };
}
