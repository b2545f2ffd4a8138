//! The subset construction of the texts of which no prefix is accepted.

ghost use Rattle.std.specs.Prelude.{◌≡◌, ◌↔◌, ℕ, List, Err, IsOk, IfOk};
ghost use Rattle.kb_word.specs.Comparison.{same_from_pointwise};
ghost use Rattle.kb_fsa.specs.Language.{AcceptsText, symbols as symbols_of};
ghost use Rattle.kb_fsa.specs.Canonical.{AreReached};
ghost use Rattle.kb_fsa.specs.Counted.{MoreSetsThan};
ghost use Rattle.kb_explore.specs.declared.det.Det.TheVariants.{TooManyStates};
ghost use Rattle.kb_fsadet.specs.Avoidance.{LeadsAvoiding, avoiding};

use crate::nfa::Nfa;
use crate::state_set::StateSet;
use crate::subset::Subsets;
use kb_explore::{Det, Machine, explore};
use kb_fsa::Fsa;
use kb_word::Memory;
use std::alloc::Global;

/// The subset construction without the sets that accept. Each set that is left does.
#[derive(Drop)]
struct AvoidingSubsets<'a> {
    subsets: Subsets<'a>,
}

impl Machine for AvoidingSubsets<'_> {
    type State = StateSet;

    ghost machine = { λ machine. avoiding machine.subsets.nfa.now };

    ghost symbols = { λ machine. symbols_of machine.subsets.nfa.now.alphabet };

    fn start(&self, alloc: Global) -> Result<Option<StateSet>, Memory> {
        match self.subsets.start(alloc)? {
            Some(states) if !self.subsets.accepts(&states) => Ok(Some(states)),
            _ => Ok(None),
        }
    }

    fn moves(&self, alloc: Global, state: &StateSet) -> Result<Vec<(u32, StateSet)>, Memory> {
        let mut moves = self.subsets.moves(alloc, state)?;
        moves.retain(|entry| !self.subsets.accepts(&entry.1));
        Ok(moves)
    }

    fn accepts(&self, _state: &StateSet) -> bool {
        true
    }

    ghost same_state = { same_from_pointwise };
}

/// A deterministic automaton of the texts that lead somewhere and of which no prefix is accepted. Its states are the
/// sets of states to which such texts lead, and each accepts.
pub fn avoiding(alloc: Global, nfa: &Nfa, limit: u32) -> Result<Fsa, Det>
    ensures language { IfOk result (λ fsa. (text : List ℕ)
        → AcceptsText fsa text ↔ ((state : ℕ) × LeadsAvoiding nfa.now text state)) }
    ensures alphabet { IfOk result (λ fsa. fsa.alphabet ≡ nfa.now.alphabet) }
    ensures reached { IfOk result (λ fsa. AreReached fsa.table) }
    ensures few { IsOk result → ¬ MoreSetsThan (LeadsAvoiding nfa.now) limit }
    ensures many { (most : ℕ) → result ≡ Err (TooManyStates most)
        → (most ≡ limit) × MoreSetsThan (LeadsAvoiding nfa.now) limit }
{
    let machine = AvoidingSubsets {
        subsets: Subsets { nfa },
    };
    let exploration = explore(alloc, &machine, limit)?;
    Ok(Fsa::new(nfa.alphabet(), exploration.table))
}
