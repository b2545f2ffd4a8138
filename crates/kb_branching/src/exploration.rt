//! The exploration.

ghost use Rattle.std.specs.Prelude.{◌≡◌, ◌↔◌, ◌<◌, ◌≤◌, ℕ, List, Err, length, map, IsOk, IfOk, OnOk};
ghost use Rattle.kb_explore.specs.declared.det.Det.TheVariants.{TooManyStates};
ghost use Rattle.kb_fsadet.specs.Nondeterministic.{AcceptsSomehow};
ghost use Rattle.kb_branching.specs.Branching.{BranchingAccepts, HasMoreBranchStates};
ghost use Rattle.kb_branching.specs.Exploration.{IsBranchExploration};
ghost use Rattle.kb_branching.specs.Progress.{AreNumbers, AreReached, IsRowAt, KeepNumbers};

use crate::machine::Branching;
use crate::numbering::number;
use indexmap::IndexSet;
use kb_explore::Det;
use kb_fsadet::{Branches, Nfa};
use kb_word::Memory;
use std::alloc::Global;
use std::hash::Hash;

/// The states of a branching machine, numbered from 1 in the order in which they were first seen.
#[derive(Drop)]
pub struct BranchExploration<S: Eq + Hash + Drop> {
    /// The automaton of the numbered states.
    pub nfa: Nfa,
    /// The machine's states, by ascending numbers.
    pub states: IndexSet<S>,
}

/// The automaton of all states that texts lead to in the machine: the starts first, then those
/// where the moves of each state lead, state by state.
pub fn explore_branches<M: Branching>(
    alloc: Global,
    machine: &M,
    limit: u32,
) -> Result<BranchExploration<M::State>, Det>
    ensures explored { IfOk result (λ e.
        IsBranchExploration (M.machine machine.now) e.nfa e.states.keys) }
    ensures language { IfOk result (λ e. (text : List ℕ)
        → AcceptsSomehow e.nfa text ↔ BranchingAccepts (M.machine machine.now) text) }
    ensures few { IsOk result → ¬ HasMoreBranchStates (M.machine machine.now) limit }
    ensures many { (most : ℕ) → result ≡ Err (TooManyStates most)
        → (most ≡ limit) × HasMoreBranchStates (M.machine machine.now) limit }
{
    let mut states = IndexSet::new(alloc);
    let starts = number_starts(alloc, machine, limit, &mut states)?;
    let mut rows = Vec::new(alloc);
    while rows.len() < states.len() {
        let row = row_at(alloc, machine, limit, &mut states, rows.len())?;
        rows.push(row)?;
    }
    let accepting = answers(alloc, machine, &states)?;
    let nfa = Nfa::new(machine.alphabet(), starts, rows, accepting);
    Ok(BranchExploration { nfa, states })
}

/// The numbers of the machine's starts.
fn number_starts<M: Branching>(
    alloc: Global,
    machine: &M,
    limit: u32,
    states: &mut IndexSet<M::State>,
) -> Result<Vec<u32>, Det>
    requires reached { AreReached (M.machine machine.now) states.old.keys }
    requires room { length states.old.keys ≤ limit }
    ensures reached { OnOk result (AreReached (M.machine machine.now) states.new.keys) }
    ensures numbers { IfOk result (λ numbers.
        AreNumbers states.new.keys numbers.items (M.machine machine.now).starts) }
    ensures room { OnOk result (length states.new.keys ≤ limit) }
    ensures many { (most : ℕ) → result ≡ Err (TooManyStates most)
        → (most ≡ limit) × HasMoreBranchStates (M.machine machine.now) limit }
{
    let starts = machine.starts(alloc)?;
    let mut numbers = Vec::new(alloc);
    for state in starts {
        let number = number::<M>(limit, states, state)?;
        numbers.push(number)?;
    }
    Ok(numbers)
}

/// The moves of the state at the place, with the numbers of the states where they lead.
fn row_at<M: Branching>(
    alloc: Global,
    machine: &M,
    limit: u32,
    states: &mut IndexSet<M::State>,
    place: usize,
) -> Result<Branches, Det>
    requires reached { AreReached (M.machine machine.now) states.old.keys }
    requires room { length states.old.keys ≤ limit }
    requires place { place < length states.old.keys }
    ensures reached { OnOk result (AreReached (M.machine machine.now) states.new.keys) }
    ensures kept { OnOk result (KeepNumbers states.old.keys states.new.keys) }
    ensures row { IfOk result (IsRowAt (M.machine machine.now) states.new.keys place) }
    ensures room { OnOk result (length states.new.keys ≤ limit) }
    ensures many { (most : ℕ) → result ≡ Err (TooManyStates most)
        → (most ≡ limit) × HasMoreBranchStates (M.machine machine.now) limit }
{
    let moves = machine.moves(alloc, &states[place])?;
    let mut row = Branches::new(alloc);
    for (symbol, state) in moves {
        let number = number::<M>(limit, states, state)?;
        row.push(symbol, number)?;
    }
    Ok(row)
}

/// For each state whether it accepts.
fn answers<M: Branching>(
    alloc: Global,
    machine: &M,
    states: &IndexSet<M::State>,
) -> Result<Vec<bool>, Memory>
    ensures { IfOk result (λ answers.
        answers.items ≡ map (M.machine machine.now).accepts states.now.keys) }
{
    let mut answers = Vec::with_capacity(alloc, states.len())?;
    for state in states.as_slice() {
        answers.push(machine.accepts(state))?;
    }
    Ok(answers)
}
