//! Moves that lead on from where a word is accepted to where another word starts.

ghost use Rattle.std.specs.Prelude.{◌≡◌, ◌++◌, IfOk, OnOk, map};
ghost use Rattle.kb_fsarat.specs.Restarts.{restarting, with_restarts};

use kb_fsa::Table;
use kb_fsadet::Branches;
use kb_word::Memory;
use std::alloc::Global;

/// The rows of the table, where each move to an accepting state is also one by its symbol to each start.
pub(crate) fn restarting_rows(
    alloc: Global,
    table: &Table,
    starts: &[u32],
) -> Result<Vec<Branches>, Memory>
    ensures { IfOk result (λ rows.
        rows.items ≡ map (restarting table.now starts.now) table.now.rows) }
{
    let rows = table.rows();
    let mut restarting = Vec::with_capacity(alloc, rows.len())?;
    for place in 0..rows.len() {
        restarting.push(restarting_row(alloc, table, starts, rows.get(place))?)?;
    }
    Ok(restarting)
}

/// The moves, of which those to an accepting state are also moves by their symbol to each start.
fn restarting_row(
    alloc: Global,
    table: &Table,
    starts: &[u32],
    moves: &[(u32, u32)],
) -> Result<Branches, Memory>
    ensures { IfOk result (λ row. row ≡ restarting table.now starts.now moves.now) }
{
    let mut row = Branches::new(alloc);
    for (symbol, target) in moves {
        row.push(*symbol, *target)?;
        if table.is_accepting(*target) {
            push_to_each(&mut row, *symbol, starts)?;
        }
    }
    Ok(row)
}

/// Adds a move by the symbol to each of the states.
fn push_to_each(row: &mut Branches, symbol: u32, states: &[u32]) -> Result<(), Memory>
    ensures { OnOk result (row.new ≡ row.old ++ map (λ state. (symbol, state)) states.now) }
{
    for state in states {
        row.push(symbol, *state)?;
    }
    Ok(())
}
