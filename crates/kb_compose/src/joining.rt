//! The moves of pairs of states.

ghost use Rattle.std.specs.Prelude.{◌≡◌, ◌≤◌, ◌+◌, ◌*◌, ◌-◌, ◌++◌, All, IfOk, OnOk};
ghost use Rattle.std.specs.List.{filter_map, flat_map};
ghost use Rattle.kb_fsa.specs.Table.{HasSymbols, IsRow, moves_of};
ghost use Rattle.kb_fsa.specs.PairSymbols.{first_letter, pair_symbols, second_letter};
ghost use Rattle.kb_compose.specs.StatePairs.{
  IsBlock,
  joined,
  joined_moves,
  moves_of_pairs,
  pair_moves,
  staying_moves,
};

use crate::pair_set::{first_state, number_of, second_state};
use kb_fsa::{PairSymbols, Table};
use kb_word::Memory;
use std::alloc::Global;

/// The moves of the pairs, one pair after another: each has the symbol of two outer letters and the number of the pair
/// to which some middle letter leads beside them, or the middle word's padding.
pub(crate) fn moves_of_pairs(
    alloc: Global,
    symbols: PairSymbols,
    first: &Table,
    second: &Table,
    pairs: &[u64],
) -> Result<Vec<(u32, u64)>, Memory>
    requires { HasSymbols (pair_symbols symbols.n) first.now }
    ensures { IfOk result (λ moves.
        moves.items ≡ moves_of_pairs symbols.n first.now second.now pairs.now) }
{
    let mut moves = Vec::new(alloc);
    for pair in pairs {
        push_moves(&mut moves, symbols, first, second, *pair)?;
    }
    Ok(moves)
}

/// Adds the moves of one pair.
fn push_moves(
    moves: &mut Vec<(u32, u64)>,
    symbols: PairSymbols,
    first: &Table,
    second: &Table,
    pair: u64,
) -> Result<(), Memory>
    requires { HasSymbols (pair_symbols symbols.n) first.now }
    ensures { OnOk result
        (moves.new.items ≡ moves.old.items ++ pair_moves symbols.n first.now second.now pair) }
{
    let (p, q) = (first_state(pair), second_state(pair));
    for entry in first.moves(p).as_slice() {
        push_joined(moves, symbols, second, q, *entry)?;
    }
    if first.is_accepting(p) {
        push_joined(moves, symbols, second, q, (symbols.count() + 1, p))?;
    }
    Ok(())
}

/// Adds what one move of the first automaton makes with those of a state of the second.
fn push_joined(
    moves: &mut Vec<(u32, u64)>,
    symbols: PairSymbols,
    second: &Table,
    q: u32,
    entry: (u32, u32),
) -> Result<(), Memory>
    requires { entry.0 ≤ pair_symbols symbols.n + 1 }
    ensures { OnOk result
        (moves.new.items ≡ moves.old.items ++ joined_moves symbols.n second.now q entry) }
{
    let last = symbols.padding() * symbols.second(entry.0);
    let block = block_of(second.moves(q).as_slice(), last - symbols.padding(), last);
    push_each(moves, symbols, entry, block)?;
    if second.is_accepting(q) {
        push_each(moves, symbols, entry, &[(symbols.count() + 1, q)])?;
    }
    Ok(())
}

/// Adds what the move makes with each of the others.
fn push_each(
    moves: &mut Vec<(u32, u64)>,
    symbols: PairSymbols,
    entry: (u32, u32),
    others: &[(u32, u32)],
) -> Result<(), Memory>
    requires { entry.0 ≤ pair_symbols symbols.n + 1 }
    ensures { OnOk result
        (moves.new.items ≡ moves.old.items ++ filter_map (joined symbols.n entry) others.now) }
{
    for other in others {
        if let Some(both) = joined(symbols, entry, *other) {
            moves.push(both)?;
        }
    }
    Ok(())
}

/// What a move of the first automaton makes with one of the second, where the middle letter is the same.
fn joined(symbols: PairSymbols, entry: (u32, u32), other: (u32, u32)) -> Option<(u32, u64)>
    requires { entry.0 ≤ pair_symbols symbols.n + 1 }
    ensures { result ≡ joined symbols.n entry other }
{
    if symbols.second(entry.0) == symbols.first(other.0) {
        let symbol = symbols.symbol(symbols.first(entry.0), symbols.second(other.0));
        Some((symbol, number_of(entry.1, other.1)))
    } else {
        None
    }
}

/// The moves by symbols above the one bound and up to the other. The searches halve the moves at each look.
fn block_of(moves: &[(u32, u32)], low: u32, high: u32) -> &[(u32, u32)]
    requires { IsRow moves.now }
    ensures { IsBlock moves.now low high result.now }
{
    let above = &moves[moves.partition_point(|entry| entry.0 <= low)..];
    &above[..above.partition_point(|entry| entry.0 <= high)]
}
