//! Moves in groups, one for each symbol.

ghost use Rattle.std.specs.Prelude.{◌≡◌, ◌≤◌, map, IfOk};
ghost use Rattle.std.specs.List.Sorted.{IsNonDecreasingBy};
ghost use Rattle.kb_fsa.specs.Language.{generators};
ghost use Rattle.kb_compose.specs.StatePairs.{AreGroupMoves};

use crate::pair_set::PairSet;
use crate::place::Place;
use kb_fsa::{Alphabet, Ended};
use kb_word::Memory;
use std::alloc::Global;

/// The moves, which may be in any order, in groups, one for each symbol that may follow, by ascending symbols, each
/// with which word has ended then.
pub(crate) fn grouped_by_sort(
    alloc: Global,
    alphabet: Alphabet,
    ended: Ended,
    mut moves: Vec<(u32, u64)>,
) -> Result<Vec<(u32, Place)>, Memory>
    requires { generators alphabet ≤ 65534 }
    ensures { IfOk result (λ places. AreGroupMoves alphabet ended moves.items places.items) }
{
    moves.sort_unstable_by_key(|entry| entry.0);
    grouped(alloc, alphabet, ended, moves.as_slice())
}

/// The moves in groups, one for each symbol that may follow, by ascending symbols.
fn grouped(
    alloc: Global,
    alphabet: Alphabet,
    ended: Ended,
    moves: &[(u32, u64)],
) -> Result<Vec<(u32, Place)>, Memory>
    requires generators { generators alphabet ≤ 65534 }
    requires order { IsNonDecreasingBy (λ entry. entry.0) moves.now }
    ensures { IfOk result (λ places. AreGroupMoves alphabet ended moves.now places.items) }
{
    let mut places = Vec::new(alloc);
    let mut rest = moves;
    while let Some(first) = rest.first() {
        let symbol = first.0;
        let count = rest.partition_point(|entry| entry.0 <= symbol);
        let (group, others) = rest.split_at(count);
        if let Some(next) = ended.after(alphabet, symbol) {
            let pairs = PairSet::of(targets_of(alloc, group)?);
            places.push((symbol, Place { ended: next, pairs }))?;
        }
        rest = others;
    }
    Ok(places)
}

/// Where the moves lead.
fn targets_of(alloc: Global, moves: &[(u32, u64)]) -> Result<Vec<u64>, Memory>
    ensures { IfOk result (λ targets. targets.items ≡ map (λ entry. entry.1) moves.now) }
{
    let mut targets = Vec::with_capacity(alloc, moves.len())?;
    for (_, target) in moves {
        targets.push(*target)?;
    }
    Ok(targets)
}
