//! The states of a table that texts lead to.

ghost use Rattle.std.specs.Prelude.{◌≡◌, IfOk, IfErr};
ghost use Rattle.std.proofs.lemmas.Bool.{eqb-true};
ghost use Rattle.kb_fsa.specs.Table.{HasSymbols};
ghost use Rattle.kb_fsafile.specs.Languages.{some_state, machine_of, IsReachedPart};
ghost use Rattle.kb_fsafile.specs.declared.error.FsaError.TheVariants.{Memory as NoMemory};

use crate::error::FsaError;
use kb_explore::{Machine, explore};
use kb_fsa::Table;
use kb_word::Memory;
use std::alloc::Global;

/// A table as a machine, whose states are the table's numbers.
#[derive(Drop)]
struct Whole {
    table: Table,
    /// No symbol of its moves is above this one.
    size: u32,
    ghost bounded: { HasSymbols size table },
}

impl Machine for Whole {
    type State = u32;

    ghost machine = { λ whole. machine_of whole.table };

    ghost symbols = { λ whole. whole.size };

    ghost same_state = { eqb-true };

    fn start(&self, _alloc: Global) -> Result<Option<u32>, Memory> {
        Ok(some_state(self.table.initial()))
    }

    fn moves(&self, alloc: Global, state: &u32) -> Result<Vec<(u32, u32)>, Memory> {
        let moves = Vec::from_slice(alloc, self.table.row(*state))?;
        Ok(moves)
    }

    fn accepts(&self, state: &u32) -> bool {
        self.table.is_accepting(*state)
    }
}

/// The state of the number, where 0 stands for none.
fn some_state(number: u32) -> Option<u32>
    ensures { result ≡ some_state number }
{
    match number {
        0 => None,
        _ => Some(number),
    }
}

/// The part of the table that texts lead to, which accepts the same texts.
pub(crate) fn reached(alloc: Global, table: Table, size: u32) -> Result<Table, FsaError>
    requires { HasSymbols size table }
    ensures symbols { IfOk result (HasSymbols size) }
    ensures part { IfOk result (IsReachedPart table) }
    ensures memory { IfErr result (λ error. error ≡ NoMemory) }
{
    let whole = Whole { table, size };
    match explore(alloc, &whole, u32::MAX) {
        Ok(exploration) => Ok(exploration.table),
        // More states than a `u32` can number take more memory than there is.
        Err(_) => Err(FsaError::Memory),
    }
}

/// Whether texts lead to more than half of the states. Only how much memory is taken goes by the answer.
pub(crate) fn leads_to_most(alloc: Global, table: &Table) -> Result<bool, Memory> {
    let count = table.len() as usize;
    let mut met = vec![in alloc; false; count]?;
    let mut waiting = Vec::new(alloc);
    meet(table.initial(), &mut met, &mut waiting)?;
    for turn in 0..count {
        let Some(state) = waiting.pop() else {
            return Ok(turn > count / 2);
        };
        for (_, target) in table.row(state) {
            meet(*target, &mut met, &mut waiting)?;
        }
    }
    Ok(true)
}

/// Marks the state, which waits where it wasn't marked before.
fn meet(state: u32, met: &mut Vec<bool>, waiting: &mut Vec<u32>) -> Result<(), Memory> {
    let place = state as usize;
    if place == 0 || place > met.len() || met[place - 1] {
        return Ok(());
    }
    met[place - 1] = true;
    waiting.push(state)?;
    Ok(())
}
