//! The subset construction: the machine that goes from set to set.

ghost use Rattle.std.specs.Prelude.{◌≡◌, map, IfOk};
ghost use Rattle.std.specs.List.Sorted.{IsNonDecreasingBy};
ghost use Rattle.kb_word.specs.Comparison.{same_from_pointwise};
ghost use Rattle.kb_fsa.specs.Language.{symbols as symbols_of};
ghost use Rattle.kb_fsadet.specs.SubsetConstruction.{AreGroups, subsets};

use crate::marks;
use crate::nfa::Nfa;
use crate::state_set::StateSet;
use kb_explore::Machine;
use kb_word::Memory;
use std::alloc::Global;

/// The subset construction of a nondeterministic automaton.
#[derive(Drop)]
pub(crate) struct Subsets<'a> {
    pub(crate) nfa: &'a Nfa,
}

impl Machine for Subsets<'_> {
    type State = StateSet;

    ghost machine = { λ machine. subsets machine.nfa.now };

    ghost symbols = { λ machine. symbols_of machine.nfa.now.alphabet };

    fn start(&self, alloc: Global) -> Result<Option<StateSet>, Memory> {
        let initial = self.nfa.initial();
        if initial.is_empty() {
            return Ok(None);
        }
        let states = Vec::from_slice(alloc, initial)?;
        Ok(Some(StateSet::of(states)))
    }

    fn moves(&self, alloc: Global, state: &StateSet) -> Result<Vec<(u32, StateSet)>, Memory> {
        let moves = self.nfa.moves_of_each(alloc, state.as_slice())?;
        let symbols = self.nfa.alphabet().symbols();
        let states = self.nfa.rows().len();
        // Marks are faster where the moves by a symbol are many beside the states.
        if moves.len() / (states / 16 + 16) < symbols as usize {
            grouped_by_sort(alloc, moves)
        } else {
            marks::grouped(alloc, moves.as_slice(), symbols, states)
        }
    }

    fn accepts(&self, state: &StateSet) -> bool {
        state
            .as_slice()
            .iter()
            .any(|number| self.nfa.is_accepting(*number))
    }

    ghost same_state = { same_from_pointwise };
}

/// The moves, which may be in any order, in groups, one for each symbol, by ascending symbols.
fn grouped_by_sort(
    alloc: Global,
    mut moves: Vec<(u32, u32)>,
) -> Result<Vec<(u32, StateSet)>, Memory>
    ensures { IfOk result (λ groups. AreGroups moves.items groups.items) }
{
    moves.sort_unstable_by_key(|entry| entry.0);
    grouped(alloc, moves.as_slice())
}

/// The moves in groups, one for each symbol, by ascending symbols.
fn grouped(alloc: Global, moves: &[(u32, u32)]) -> Result<Vec<(u32, StateSet)>, Memory>
    requires { IsNonDecreasingBy (λ entry. entry.0) moves.now }
    ensures { IfOk result (λ groups. AreGroups moves.now groups.items) }
{
    let mut groups = Vec::new(alloc);
    let mut rest = moves;
    while let Some(first) = rest.first() {
        let symbol = first.0;
        let count = rest.partition_point(|entry| entry.0 <= symbol);
        let (group, others) = rest.split_at(count);
        groups.push((symbol, StateSet::of(targets_of(alloc, group)?)))?;
        rest = others;
    }
    Ok(groups)
}

/// Where the moves lead.
fn targets_of(alloc: Global, moves: &[(u32, u32)]) -> Result<Vec<u32>, Memory>
    ensures { IfOk result (λ targets. targets.items ≡ map (λ entry. entry.1) moves.now) }
{
    let mut targets = Vec::with_capacity(alloc, moves.len())?;
    for (_, target) in moves {
        targets.push(*target)?;
    }
    Ok(targets)
}
