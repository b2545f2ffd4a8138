//! How many texts lead from each state to acceptance, where they are finitely many.

ghost use Rattle.std.specs.Prelude.{◌≡◌, ◌<◌, ◌≤◌, ◌+◌, ℕ, true, false, not, All, IfOk, OnOk, IfSome, IfNone, IsTrue, IsFalse, count_by, length, get_or};
ghost use Rattle.kb_fsa.specs.Canonical.{IsState};
ghost use Rattle.kb_fsa.specs.Graphs.{IsMarked};
ghost use Rattle.kb_fsa.specs.Table.{Table, moves_of};
ghost use Rattle.kb_count.specs.Totals.{AreTotals, AreStuckAbove, LeadsToUnsettled};

use crate::lengths::{number_of_none, sum_along};
use crate::natural::Natural;
use kb_fsa::Table;
use kb_word::Memory;
use std::alloc::Global;

/// For state 0, that is no state, and the states from 1 on, which are settled, and how many texts lead from those that
/// are to acceptance.
#[derive(Drop)]
pub(crate) struct Totals {
    settled: Vec<bool>,
    numbers: Vec<Natural>,
}

impl Totals {
    /// No state is settled.
    fn none(alloc: Global, table: &Table) -> Result<Totals, Memory>
        ensures { IfOk result (λ totals.
            AreTotals table.now totals.settled.items totals.numbers.items) }
    {
        let mut settled = Vec::new(alloc);
        let mut numbers = Vec::new(alloc);
        for _ in 0..table.rows().len() + 1 {
            settled.push(false)?;
            numbers.push(Natural::new(alloc, 0)?)?;
        }
        Ok(Totals { settled, numbers })
    }

    /// How many texts lead from the state to acceptance, if it is settled.
    pub(crate) fn of_state(&self, state: u32) -> Option<&Natural>
        requires settled { state < length self.now.settled.items }
        requires numbers { state < length self.now.numbers.items }
        ensures some { IfSome result (λ number. IsMarked self.now.settled.items state
            × (number.now ≡ get_or self.now.numbers.items state 0)) }
        ensures none { IfNone result (get_or self.now.settled.items state false ≡ false) }
    {
        let place = state as usize;
        if self.settled[place] {
            Some(&self.numbers[place])
        } else {
            None
        }
    }
}

/// The totals of all states that can be settled.
pub(crate) fn totals_of(alloc: Global, table: &Table) -> Result<Totals, Memory>
    ensures totals { IfOk result (λ totals.
        AreTotals table.now totals.settled.items totals.numbers.items) }
    ensures stuck { IfOk result (λ totals. AreStuckAbove 0 table.now totals.settled.items) }
{
    let mut totals = Totals::none(alloc, table)?;
    loop {
        if !settle(alloc, table, &mut totals)? {
            return Ok(totals);
        }
    }
}

/// Goes over the states, from the last to the first, and settles those that can be. Returns whether it settled one.
fn settle(alloc: Global, table: &Table, totals: &mut Totals) -> Result<bool, Memory>
    requires { AreTotals table.now totals.old.settled.items totals.old.numbers.items }
    ensures totals { OnOk result
        (AreTotals table.now totals.new.settled.items totals.new.numbers.items) }
    ensures more { IfOk result (λ more. IsTrue more
        → count_by not totals.new.settled.items < count_by not totals.old.settled.items) }
    ensures stuck { IfOk result (λ more. IsFalse more
        → AreStuckAbove 0 table.now totals.new.settled.items) }
{
    let mut more = false;
    let mut state = table.len();
    while state > 0 {
        if settle_state(alloc, table, state, totals)? {
            more = true;
        }
        state -= 1;
    }
    Ok(more)
}

/// Settles the state where it isn't and all its moves lead to settled ones. Returns whether it did.
fn settle_state(
    alloc: Global,
    table: &Table,
    state: u32,
    totals: &mut Totals,
) -> Result<bool, Memory>
    requires totals { AreTotals table.now totals.old.settled.items totals.old.numbers.items }
    requires state { IsState table.now state }
    ensures totals { OnOk result
        (AreTotals table.now totals.new.settled.items totals.new.numbers.items) }
    ensures more { IfOk result (λ more. IsTrue more
        → count_by not totals.new.settled.items < count_by not totals.old.settled.items) }
    ensures same { IfOk result (λ more. IsFalse more
        → totals.new.settled.items ≡ totals.old.settled.items) }
    ensures stuck { IfOk result (λ more. IsFalse more
        → get_or totals.old.settled.items state false ≡ false
        → LeadsToUnsettled totals.old.settled.items (moves_of table.now state)) }
{
    let row = table.row(state);
    let place = state as usize;
    if totals.settled[place] || !lead_to_settled(row, totals.settled.as_slice()) {
        return Ok(false);
    }
    let own = number_of_none(alloc, table, state)?;
    let total = sum_along(alloc, own, row, totals.numbers.as_slice())?;
    totals.numbers[place] = total;
    totals.settled[place] = true;
    Ok(true)
}

/// Whether all the moves lead to settled states.
fn lead_to_settled(row: &[(u32, u32)], settled: &[bool]) -> bool
    requires { All (λ move. move.1 < length settled.now) row.now }
    ensures all { IsTrue result → All (λ move. IsMarked settled.now move.1) row.now }
    ensures some { IsFalse result → LeadsToUnsettled settled.now row.now }
{
    for (_, target) in row {
        if !settled[*target as usize] {
            return false;
        }
    }
    true
}
