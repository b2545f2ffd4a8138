//! The moves of a product, from the rows of two states.

ghost use Rattle.std.specs.Prelude.{◌≡◌, [], IfOk, IfSome, IfNone};
ghost use Rattle.kb_fsa.specs.Table.{IsRow};
ghost use Rattle.kb_fsabool.specs.Products.{AreMerged, IsLeastSymbol};

use crate::connective::{Connective, StatePair};
use kb_fsa::split_at_symbol;
use kb_word::Memory;
use std::alloc::Global;

/// The moves from the product's state whose two rows these are.
pub fn merge(
    alloc: Global,
    connective: Connective,
    first: &[(u32, u32)],
    second: &[(u32, u32)],
) -> Result<Vec<(u32, StatePair)>, Memory>
    requires first { IsRow first.now }
    requires second { IsRow second.now }
    ensures { IfOk result (λ moves. AreMerged connective first.now second.now moves.items) }
{
    let mut moves = Vec::new(alloc);
    let (mut first, mut second) = (first, second);
    while let Some(symbol) = least_symbol(first, second) {
        let (one, after_first) = split_at_symbol(first, symbol);
        let (two, after_second) = split_at_symbol(second, symbol);
        if let Some(state) = connective.pair(one, two) {
            moves.push((symbol, state))?;
        }
        (first, second) = (after_first, after_second);
    }
    Ok(moves)
}

/// The least symbol of the two rows, where either has a move.
fn least_symbol(first: &[(u32, u32)], second: &[(u32, u32)]) -> Option<u32>
    requires first { IsRow first.now }
    requires second { IsRow second.now }
    ensures some { IfSome result (λ symbol. IsLeastSymbol first.now second.now symbol) }
    ensures none { IfNone result ((first.now ≡ []) × (second.now ≡ [])) }
{
    match (first.first(), second.first()) {
        (Some(one), Some(two)) => Some(one.0.min(two.0)),
        (Some(one), None) => Some(one.0),
        (None, Some(two)) => Some(two.0),
        (None, None) => None,
    }
}
