//! Moves in groups by symbols, by marks: for each symbol a row of marks, one for each state. It takes no sort.

ghost use Rattle.std.specs.Prelude.{◌≡◌, ◌<◌, ◌-◌, ◌^◌, true, false, All, IfOk, length, replicate, set};
ghost use Rattle.kb_fsadet.specs.Nondeterministic.{IsOneOf};
ghost use Rattle.kb_fsadet.specs.SubsetConstruction.{AreGroups};
ghost use Rattle.kb_fsadet.specs.Marks.{groups_from, numbers_from};

use crate::state_set::StateSet;
use kb_word::Memory;
use std::alloc::Global;
use std::marker::Model;

/// For states 1, 2, and so on whether moves by one symbol lead there.
#[derive(Drop)]
struct TargetMarks {
    marks: Vec<bool>,
}

impl Model for TargetMarks {
    ghost use Rattle.std.specs.Prelude.{Bool, List};

    ghost Value = { List Bool };

    ghost view = { λ row. row.marks.items };
}

impl TargetMarks {
    /// No marks, of so many states.
    fn new(alloc: Global, states: usize) -> Result<TargetMarks, Memory>
        ensures { IfOk result (λ row. row ≡ replicate states false) }
    {
        let marks = vec![in alloc; false; states]?;
        Ok(TargetMarks { marks })
    }

    /// Marks a state.
    fn mark(&mut self, state: u32)
        requires { IsOneOf (length self.old) state }
        ensures { self.new ≡ set self.old (state - 1) true }
    {
        self.marks[state as usize - 1] = true;
    }

    /// The marks, in order.
    fn as_slice(&self) -> &[bool]
        ensures { result.now ≡ self.now }
    {
        self.marks.as_slice()
    }
}

/// The moves, which may be in any order, in groups, one for each symbol, by ascending symbols. There
/// are so many symbols and so many states.
pub(crate) fn grouped(
    alloc: Global,
    moves: &[(u32, u32)],
    symbols: u32,
    states: usize,
) -> Result<Vec<(u32, StateSet)>, Memory>
    requires size { states < 2 ^ 32 }
    requires moves { All (λ move. IsOneOf symbols move.0 × IsOneOf states move.1) moves.now }
    ensures { IfOk result (λ groups. AreGroups moves.now groups.items) }
{
    let mut rows = unmarked_rows(alloc, symbols as usize, states)?;
    for (symbol, target) in moves {
        let row = &mut rows[*symbol as usize - 1];
        row.mark(*target);
    }
    groups_of(alloc, rows.as_slice())
}

/// So many rows without marks.
fn unmarked_rows(alloc: Global, count: usize, states: usize) -> Result<Vec<TargetMarks>, Memory>
    ensures { IfOk result (λ rows. rows.items ≡ replicate count (replicate states false)) }
{
    let mut rows = Vec::with_capacity(alloc, count)?;
    for _ in 0..count {
        rows.push(TargetMarks::new(alloc, states)?)?;
    }
    Ok(rows)
}

/// The groups of symbols 1, 2, and so on, each of what is marked in its row; none of a row without
/// marks.
fn groups_of(alloc: Global, rows: &[TargetMarks]) -> Result<Vec<(u32, StateSet)>, Memory>
    requires symbols { length rows.now < 2 ^ 32 }
    requires states { All (λ row. length row < 2 ^ 32) rows.now }
    ensures { IfOk result (λ groups. groups.items ≡ groups_from 1 rows.now) }
{
    let mut groups = Vec::new(alloc);
    let mut symbol = 0;
    for row in rows {
        symbol += 1;
        let numbers = numbers_of(alloc, row.as_slice())?;
        if !numbers.is_empty() {
            groups.push((symbol, StateSet::ascending(numbers)))?;
        }
    }
    Ok(groups)
}

/// The numbers of what is marked, ascending. Each number is written in the next free place, which
/// stays free where there is no mark: no branch hangs on a mark, which would be guessed wrong often.
fn numbers_of(alloc: Global, marks: &[bool]) -> Result<Vec<u32>, Memory>
    requires { length marks.now < 2 ^ 32 }
    ensures { IfOk result (λ numbers. numbers.items ≡ numbers_from 1 marks.now) }
{
    let mut numbers = vec![in alloc; 0; marks.len()]?;
    let mut number = 0;
    let mut found = 0;
    for mark in marks {
        number += 1;
        numbers[found] = number;
        found += usize::from(*mark);
    }
    numbers.truncate(found);
    numbers.shrink_to_fit();
    Ok(numbers)
}
