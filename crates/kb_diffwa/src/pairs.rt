//! The machine that reads the pairs of a multiplier.

ghost use Rattle.std.specs.Prelude.{◌≡◌, ◌<◌, ◌≤◌, ◌+◌, ◌++◌, [], ◌∷◌, nat_eq, OnOk};
ghost use Rattle.std.specs.List.{filter_map, list_any};
ghost use Rattle.std.proofs.Common.{rules};
ghost use Rattle.kb_fsa.specs.Language.{IsAutomaton};
ghost use Rattle.kb_fsa.specs.declared.alphabet.Alphabet.TheVariants.{Plain};
ghost use Rattle.kb_fsa.specs.PairSymbols.{pair_symbols};
ghost use Rattle.kb_diff.specs.Tables.{step_in};
ghost use Rattle.kb_diffwa.specs.Tracks.{may_end, track_moves};
ghost use Rattle.kb_diffwa.specs.Pairs.{entered, move_by, pairs};

use crate::place::Place;
use kb_diff::Machine as DifferenceMachine;
use kb_explore::Machine;
use kb_fsa::{Fsa, PairSymbols};
use kb_word::Memory;
use std::alloc::Global;

/// Pairs of an acceptor's words, read side by side with their difference.
#[derive(Drop)]
pub(crate) struct Pairs<'a> {
    /// The acceptor of both words.
    pub(crate) acceptor: &'a Fsa,
    /// The symbols of the pairs.
    pub(crate) symbols: PairSymbols,
    /// The steps between differences.
    pub(crate) differences: &'a DifferenceMachine,
    /// The numbers of the differences at which pairs are accepted.
    pub(crate) targets: &'a [u32],
    pub(crate) ghost plain: { IsAutomaton (record {
      alphabet = Plain symbols.n;
      table = acceptor.now.table;
    }) },
}

impl<'a> Machine for Pairs<'a> {
    type State = Place;

    ghost machine = { λ it.
        pairs it.acceptor.now.table it.symbols.n (step_in it.differences.now) it.targets.now };

    ghost symbols = { λ it. pair_symbols it.symbols.n };

    ghost same_state = { Prim.search rules };

    fn start(&self, _alloc: Global) -> Result<Option<Place>, Memory> {
        let state = self.acceptor.initial();
        if state == 0 {
            return Ok(None);
        }
        Ok(Some(Place {
            first: state,
            second: state,
            difference: 1,
        }))
    }

    fn moves(&self, alloc: Global, place: &Place) -> Result<Vec<(u32, Place)>, Memory> {
        let mut moves = Vec::new(alloc);
        for first in self.acceptor.moves(place.first).as_slice() {
            self.add_moves(place, *first, &mut moves)?;
        }
        if self.may_end(place.first) {
            self.add_moves(place, (self.symbols.padding(), 0), &mut moves)?;
        }
        Ok(moves)
    }

    fn accepts(&self, place: &Place) -> bool {
        self.may_end(place.first) && self.may_end(place.second) && self.is_target(place.difference)
    }
}

impl<'a> Pairs<'a> {
    /// Whether a word may end where its track stands.
    fn may_end(&self, track: u32) -> bool
        ensures { result ≡ may_end self.now.acceptor.now.table track }
    {
        track == 0 || self.acceptor.is_accepting(track)
    }

    /// Whether pairs are accepted at the difference of this number.
    fn is_target(&self, difference: u32) -> bool
        ensures { result ≡ list_any (λ target. nat_eq target difference) self.now.targets.now }
    {
        self.targets.iter().any(|target| *target == difference)
    }

    /// Adds the moves by one first letter, given with where it leads the first track, and each second one.
    fn add_moves(
        &self,
        place: &Place,
        first: (u32, u32),
        moves: &mut Vec<(u32, Place)>,
    ) -> Result<(), Memory>
        requires positive { 0 < first.0 }
        requires letter { first.0 ≤ self.now.symbols.n + 1 }
        ensures { OnOk result (moves.new.items ≡ moves.old.items ++ filter_map
            (move_by (step_in self.now.differences.now) self.now.symbols.n
            place.now.difference first)
            (track_moves self.now.acceptor.now.table self.now.symbols.n place.now.second)) }
    {
        for second in self.acceptor.moves(place.second).as_slice() {
            self.add_move(place.difference, first, *second, moves)?;
        }
        if self.may_end(place.second) {
            self.add_move(place.difference, first, (self.symbols.padding(), 0), moves)?;
        }
        Ok(())
    }

    /// Adds the move by two letters, each given with where it leads its track, if there is one.
    fn add_move(
        &self,
        difference: u32,
        first: (u32, u32),
        second: (u32, u32),
        moves: &mut Vec<(u32, Place)>,
    ) -> Result<(), Memory>
        requires positive { 0 < first.0 }
        requires letter { first.0 ≤ self.now.symbols.n + 1 }
        requires other_positive { 0 < second.0 }
        requires other_letter { second.0 ≤ self.now.symbols.n + 1 }
        ensures { OnOk result (moves.new.items ≡ moves.old.items ++ filter_map
            (move_by (step_in self.now.differences.now) self.now.symbols.n difference first)
            (second ∷ [])) }
    {
        if let Some(place) = self.enter(difference, first, second) {
            let symbol = self.symbols.symbol(first.0, second.0);
            moves.push((symbol, place))?;
        }
        Ok(())
    }

    /// Where two letters lead: nowhere by two paddings, or where the difference isn't kept.
    fn enter(&self, difference: u32, first: (u32, u32), second: (u32, u32)) -> Option<Place>
        requires letter { first.0 ≤ self.now.symbols.n + 1 }
        requires other_letter { second.0 ≤ self.now.symbols.n + 1 }
        ensures { result ≡ entered (step_in self.now.differences.now) self.now.symbols.n
            difference first second }
    {
        let padding = self.symbols.padding();
        if first.0 == padding && second.0 == padding {
            return None;
        }
        let (a, b) = (first.0 as u16, second.0 as u16);
        let difference = self.differences.step(difference, a, b);
        if difference == 0 {
            return None;
        }
        Some(Place {
            first: first.1,
            second: second.1,
            difference,
        })
    }
}
