//! The exploration.

ghost use Rattle.std.specs.Prelude.{◌≡◌, ◌<◌, ◌≤◌, ℕ, List, Err, [], ◌∷◌, ◌++◌, length, map, IsOk, IfOk, OnOk};
ghost use Rattle.kb_fsa.specs.Table.{HasSymbols, IsRow};
ghost use Rattle.kb_explore.specs.Machine.{HasMoreStates};
ghost use Rattle.kb_explore.specs.Exploration.{AreFromEarlier, IsExploration, IsTraced};
ghost use Rattle.kb_explore.specs.Progress.{IsUnderWay, seen_count};
ghost use Rattle.kb_explore.specs.declared.det.Det.TheVariants.{TooManyStates};

use crate::det::Det;
use crate::machine::Machine;
use crate::seen::{Seen, number, start};
use indexmap::IndexSet;
use kb_fsa::{Rows, Table};
use kb_word::Memory;
use std::alloc::Global;
use std::hash::Hash;

/// The states of a machine, numbered from 1 in the order in which they were first seen.
#[derive(Drop)]
pub struct Exploration<S: Eq + Hash + Drop> {
    /// The numbered states' moves.
    pub table: Table,
    /// The machine's states, by ascending numbers.
    pub states: IndexSet<S>,
    /// For each state, the number of the state from which it was first seen, and the symbol that led to it; (0, 0)
    /// for the initial state.
    pub origins: Vec<(u32, u32)>,
}

/// All states that texts lead to in the machine, breadth first.
pub fn explore<M: Machine>(
    alloc: Global,
    machine: &M,
    limit: u32,
) -> Result<Exploration<M::State>, Det>
    ensures explored { IfOk result (λ e. IsExploration (M.machine machine.now)
        e.table e.states.keys e.origins.items) }
    ensures symbols { IfOk result (λ e. HasSymbols (M.symbols machine.now) e.table) }
    ensures few { IsOk result → ¬ HasMoreStates (M.machine machine.now) limit }
    ensures many { (most : ℕ) → result ≡ Err (TooManyStates most)
        → (most ≡ limit) × HasMoreStates (M.machine machine.now) limit }
{
    let mut seen = start(alloc, machine, limit)?;
    let mut rows = Rows::new(alloc)?;
    while rows.len() < seen.states.len() {
        let row = next_row(alloc, machine, limit, &mut seen, &rows)?;
        rows.push(row.as_slice())?;
    }
    let accepting = answers(alloc, machine, &seen.states)?;
    // The initial state, where there is one, was seen first.
    let initial = rows.len().min(1) as u32;
    Ok(Exploration {
        table: Table::new(initial, rows, accepting),
        states: seen.states,
        origins: seen.origins,
    })
}

/// The row after these, of the state at their end: its moves with the numbers of the states where they lead.
fn next_row<M: Machine>(
    alloc: Global,
    machine: &M,
    limit: u32,
    seen: &mut Seen<M::State>,
    rows: &Rows,
) -> Result<Vec<(u32, u32)>, Det>
    requires progress { IsUnderWay (M.machine machine.now) (M.symbols machine.now)
        seen.old rows.now }
    requires more { length rows.now < seen_count seen.old }
    requires room { seen_count seen.old ≤ limit }
    ensures progress { IfOk result (λ row.
        IsUnderWay (M.machine machine.now) (M.symbols machine.now)
        seen.new (rows.now ++ row.items ∷ [])) }
    ensures row { IfOk result (λ row. IsRow row.items) }
    ensures room { OnOk result (seen_count seen.new ≤ limit) }
    ensures many { (most : ℕ) → result ≡ Err (TooManyStates most)
        → (most ≡ limit) × HasMoreStates (M.machine machine.now) limit }
{
    let done = rows.len();
    let moves = machine.moves(alloc, &seen.states[done])?;
    let mut row = Vec::with_capacity(alloc, moves.len())?;
    for (symbol, state) in moves {
        let origin = (done as u32 + 1, symbol);
        let number = number::<M>(limit, seen, state, origin)?;
        row.push((symbol, number))?;
    }
    Ok(row)
}

/// For each state whether it accepts.
pub(crate) fn answers<M: Machine>(
    alloc: Global,
    machine: &M,
    states: &IndexSet<M::State>,
) -> Result<Vec<bool>, Memory>
    ensures { IfOk result (λ answers.
        answers.items ≡ map (M.machine machine.now).accepts states.now.keys) }
{
    let mut answers = Vec::with_capacity(alloc, states.len())?;
    for state in states.as_slice() {
        answers.push(machine.accepts(state))?;
    }
    Ok(answers)
}

/// The text by which a state was first seen: its symbols in order.
pub fn text_to(alloc: Global, origins: &[(u32, u32)], state: u32) -> Result<Vec<u32>, Memory>
    requires traced { (text : List ℕ) × IsTraced origins.now state text }
    requires from_earlier { AreFromEarlier origins.now }
    ensures { IfOk result (λ text. IsTraced origins.now state text.items) }
{
    let mut text = Vec::new(alloc);
    let (mut parent, mut symbol) = origins[state as usize - 1];
    while parent != 0 {
        text.push(symbol)?;
        (parent, symbol) = origins[parent as usize - 1];
    }
    text.reverse();
    Ok(text)
}
