//! Marks of the symbols by which some multiplier goes on.

ghost use Rattle.std.specs.Prelude.{◌≡◌, ℕ, IfOk, get_or, true};
ghost use Rattle.kb_minkb.specs.Marks.{AreAllMarked, AreMovesMarked, IsUnmarked};

use kb_fsa::Fsa;
use kb_word::Memory;
use std::alloc::Global;

/// Marks of symbols up to this one: each by which some multiplier has a move from its state has a mark.
pub(crate) fn moving_symbols(
    alloc: Global,
    multipliers: &[Fsa],
    states: &[u32],
    last: u32,
) -> Result<Vec<bool>, Memory>
    ensures { IfOk result (λ marks. AreAllMarked multipliers.now states.now marks.items) }
{
    let mut marks = vec![in alloc; false; last as usize + 1]?;
    for (multiplier, state) in multipliers.iter().zip(states) {
        mark_moves(multiplier, *state, &mut marks);
    }
    Ok(marks)
}

/// Marks the symbols of the state's moves.
fn mark_moves(multiplier: &Fsa, state: u32, marks: &mut Vec<bool>)
    ensures { AreMovesMarked multiplier.now.table state marks.old.items marks.new.items }
{
    for entry in multiplier.moves(state).as_slice() {
        mark(marks, entry.0);
    }
}

/// Marks the symbol.
fn mark(marks: &mut Vec<bool>, symbol: u32)
    ensures here { ¬ IsUnmarked marks.new.items symbol }
    ensures others { (other : ℕ) → IsUnmarked marks.new.items other
        → IsUnmarked marks.old.items other }
{
    let place = symbol as usize;
    if place < marks.len() {
        marks[place] = true;
    }
}

/// Whether the symbol has a mark. One past the list has.
pub(crate) fn is_marked(marks: &[bool], symbol: u32) -> bool
    ensures { result ≡ get_or marks.now symbol true }
{
    marks.get(symbol as usize).copied().unwrap_or(true)
}
