//! The moves of a table, taken backwards.

ghost use Rattle.std.specs.Prelude.{◌≡◌, ◌↔◌, ◌+◌, ℕ, length, IfOk};
ghost use Rattle.kb_fsa.specs.Table.{IsLive};
ghost use Rattle.kb_fsa.specs.Graphs.{IsMarked};
ghost use Rattle.kb_fsa.specs.Moves.{IsBackwardOf};

use crate::reach::reached;
use crate::table::Table;
use kb_word::Memory;
use std::alloc::Global;

/// All moves of a table, each from its target to the state that has it, with its symbol.
#[derive(Drop)]
pub struct Backward {
    /// For each move, its target and the state that has it.
    pub edges: Vec<(u32, u32)>,
    /// For each move, its symbol.
    pub symbols: Vec<u32>,
}

/// The moves of the table, taken backwards.
pub fn reversed(alloc: Global, table: &Table) -> Result<Backward, Memory>
    ensures { IfOk result (IsBackwardOf table.now) }
{
    let mut edges = Vec::new(alloc);
    let mut symbols = Vec::new(alloc);
    let rows = table.rows();
    let mut state = 0;
    for place in 0..rows.len() {
        state += 1;
        for (symbol, target) in rows.get(place) {
            edges.push((*target, state))?;
            symbols.push(*symbol)?;
        }
    }
    Ok(Backward { edges, symbols })
}

/// For state 0, that is no state, and the states from 1 on, whether they lead to acceptance.
pub fn live(alloc: Global, table: &Table, moves: &Backward) -> Result<Vec<bool>, Memory>
    requires { IsBackwardOf table.now moves.now }
    ensures one_each { IfOk result (λ marks. length marks.items ≡ length table.now.rows + 1) }
    ensures live { IfOk result (λ marks. (state : ℕ)
        → IsMarked marks.items state ↔ IsLive table.now state) }
{
    let mut seeds = vec![in alloc; false]?;
    seeds.extend_from_slice(table.accepting())?;
    reached(alloc, moves.edges.as_slice(), seeds.as_slice())
}
