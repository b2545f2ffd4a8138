//! How many accepted texts have a length.

ghost use Rattle.std.specs.Prelude.{◌≡◌, ◌<◌, ◌≤◌, ◌+◌, ℕ, suc, All, IfOk, length, get_or};
ghost use Rattle.kb_count.specs.Counts.{AreSoMany, IsAcceptedOfLength, AcceptsSoManyOfLength};
ghost use Rattle.kb_count.specs.Totals.{AreNumbersOfLength, sum_along};

use crate::natural::Natural;
use kb_fsa::{Fsa, Table};
use kb_fsamin::canonical;
use kb_word::Memory;
use std::alloc::Global;

/// For each length from 0 to `most`, how many texts of that length the automaton accepts.
pub fn counts_by_length(alloc: Global, fsa: &Fsa, most: u16) -> Result<Vec<Natural>, Memory>
    ensures one_each { IfOk result (λ counts. length counts.items ≡ most + 1) }
    ensures right { IfOk result (λ counts. (long : ℕ) → long ≤ most
        → AcceptsSoManyOfLength fsa.now long (get_or counts.items long 0)) }
{
    let least = canonical(alloc, fsa)?;
    Ok(counts_over(alloc, &least, most)?)
}

/// The same, over the states of the automaton.
fn counts_over(alloc: Global, fsa: &Fsa, most: u16) -> Result<Vec<Natural>, Memory>
    ensures one_each { IfOk result (λ counts. length counts.items ≡ most + 1) }
    ensures right { IfOk result (λ counts. (long : ℕ) → long ≤ most
        → AcceptsSoManyOfLength fsa.now long (get_or counts.items long 0)) }
{
    let table = fsa.table();
    let first = fsa.initial() as usize;
    let mut numbers = numbers_of_none(alloc, table)?;
    let mut counts = Vec::new(alloc);
    counts.push(numbers[first].copy(alloc)?)?;
    for _ in 0..most {
        numbers = numbers_of_longer(alloc, table, numbers.as_slice())?;
        counts.push(numbers[first].copy(alloc)?)?;
    }
    Ok(counts)
}

/// For state 0, that is no state, and the states from 1 on, how many texts of length 0 lead to acceptance.
fn numbers_of_none(alloc: Global, table: &Table) -> Result<Vec<Natural>, Memory>
    ensures { IfOk result (λ numbers. AreNumbersOfLength table.now 0 numbers.items) }
{
    let mut numbers = Vec::new(alloc);
    for state in 0..table.rows().len() + 1 {
        numbers.push(number_of_none(alloc, table, state as u32)?)?;
    }
    Ok(numbers)
}

/// How many texts of length 0 lead from the state to acceptance: one or none.
pub(crate) fn number_of_none(alloc: Global, table: &Table, state: u32) -> Result<Natural, Memory>
    ensures { IfOk result (AreSoMany (IsAcceptedOfLength table.now 0 state)) }
{
    if table.is_accepting(state) {
        Natural::new(alloc, 1)
    } else {
        Natural::new(alloc, 0)
    }
}

/// The numbers of the texts that are longer by one than those of the numbers given.
fn numbers_of_longer(
    alloc: Global,
    table: &Table,
    numbers: &[Natural],
) -> Result<Vec<Natural>, Memory>
    requires { length numbers.now ≡ length table.now.rows + 1 }
    ensures { IfOk result (λ longer. (long : ℕ) → AreNumbersOfLength table.now long numbers.now
        → AreNumbersOfLength table.now (suc long) longer.items) }
{
    let mut longer = Vec::new(alloc);
    for state in 0..table.rows().len() + 1 {
        let none = Natural::new(alloc, 0)?;
        longer.push(sum_along(alloc, none, table.row(state as u32), numbers)?)?;
    }
    Ok(longer)
}

/// The number with those of the states to which the moves lead.
pub(crate) fn sum_along(
    alloc: Global,
    own: Natural,
    row: &[(u32, u32)],
    numbers: &[Natural],
) -> Result<Natural, Memory>
    requires { All (λ move. move.1 < length numbers.now) row.now }
    ensures { IfOk result (λ sum. sum ≡ own + sum_along numbers.now row.now) }
{
    let mut sum = own;
    for (_, target) in row {
        sum = sum.plus(alloc, &numbers[*target as usize])?;
    }
    Ok(sum)
}
