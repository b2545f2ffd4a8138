//! Refinement of classes by splitters, the smaller half first.
//!
//! States are in blocks, and moves in cords: those of a cord have one symbol, and lead into one
//! block as the blocks were once. A block that waits splits the cords into the moves that lead into
//! it and the others; a cord splits the blocks into the states that have a move of the cord and the
//! others. Alike states, from which each text leads to one label, are never split.

ghost use Rattle.std.specs.Prelude.{◌≡◌, ◌<◌, ◌≤◌, ◌^◌, ℕ, suc, ◌+◌, List, length, get_or, All, IfOk, OnOk};
ghost use Rattle.kb_fsa.specs.Table.{Table};
ghost use Rattle.kb_fsa.specs.Moves.{IsBackwardOf};
ghost use Rattle.kb_fsamin.specs.Partitions.{IsPartition, part_of};
ghost use Rattle.kb_fsamin.specs.Rounds.{IsClassing};
ghost use Rattle.kb_fsamin.specs.Splitting.{AreEntering, AreClassesOfBlocks, AreIncoming, AreLeaving, ArePaired, KeepsSplitting};

use crate::incoming::Incoming;
use crate::partition::Partition;
use indexmap::IndexSet;
use kb_fsa::Backward;
use kb_word::Memory;
use std::alloc::Global;

/// Splits the classes, numbered below the count, as far as splitters do. A class is then numbered by a state of it.
pub(crate) fn split_by_splitters(
    alloc: Global,
    moves: Backward,
    start: &[u32],
    count: usize,
) -> Result<Vec<u32>, Memory>
    requires classes { All (λ class. class < count) start.now }
    requires symbols { length moves.symbols.items ≡ length moves.edges.items }
    requires known { All (λ edge. edge.0 < length start.now) moves.edges.items }
    requires states { All (λ edge. edge.1 < length start.now) moves.edges.items }
    ensures { IfOk result (λ classes. (table : Table) (labels : List ℕ) → IsBackwardOf table moves
        → IsClassing table labels start.now → IsClassing table labels classes.items) }
{
    let of = Vec::from_slice(alloc, start)?;
    if start.len().max(moves.edges.len()).max(count) >= u32::MAX as usize {
        return Ok(of);
    }
    let Backward { edges, symbols } = moves;
    let edges = edges.as_slice();
    // What is only needed to make these is let go before blocks and cords are there.
    let incoming = Incoming::new(alloc, edges, start.len())?;
    let mut cords = by_symbol(alloc, symbols.as_slice())?;
    drop(symbols);
    let mut blocks = Partition::new(alloc, of, count)?;
    refine(alloc, edges, &incoming, start, &mut blocks, &mut cords)?;
    // The classes stand on the blocks alone.
    drop(incoming);
    drop(cords);
    classes_of_blocks(alloc, start, &blocks)
}

/// Splits the cords by each block, and the blocks by each cord, also by those that come.
fn refine(
    alloc: Global,
    edges: &[(u32, u32)],
    incoming: &Incoming,
    start: &[u32],
    blocks: &mut Partition,
    cords: &mut Partition,
) -> Result<(), Memory>
    requires known { All (λ edge. edge.0 < length start.now) edges.now }
    requires states { All (λ edge. edge.1 < length start.now) edges.now }
    requires incoming { AreIncoming edges.now (length start.now) incoming.now }
    requires paired { ArePaired edges.now start.now blocks.old cords.old }
    ensures paired { OnOk result (ArePaired edges.now start.now blocks.new cords.new) }
    ensures keeps { OnOk result ((symbols : List ℕ)
        → KeepsSplitting edges.now symbols start.now blocks.old cords.old blocks.new cords.new) }
{
    let mut block = 0;
    let mut cord = 0;
    loop {
        if block < blocks.len() {
            let moves = entering(alloc, edges, incoming, blocks, block as u32)?;
            cords.split(moves.as_slice())?;
            block += 1;
        } else if cord < cords.len() {
            let states = leaving(alloc, edges, start, cords, cord as u32)?;
            blocks.split(states.as_slice())?;
            cord += 1;
        } else {
            return Ok(());
        }
    }
}

/// The blocks as classes, each numbered by a state of it, but for what has class 0.
fn classes_of_blocks(alloc: Global, start: &[u32], blocks: &Partition) -> Result<Vec<u32>, Memory>
    requires blocks { IsPartition blocks.now }
    requires one_each { length blocks.now.of.items ≡ length start.now }
    ensures { IfOk result (λ classes.
        AreClassesOfBlocks start.now blocks.now (length start.now) classes.items) }
{
    let mut classes = Vec::with_capacity(alloc, start.len())?;
    for (state, class) in start.iter().enumerate() {
        classes.push(if *class == 0 {
            0
        } else {
            blocks.representative(state as u32)
        })?;
    }
    Ok(classes)
}

/// Cords of all moves by one symbol each.
fn by_symbol(alloc: Global, symbols: &[u32]) -> Result<Partition, Memory>
    requires { length symbols.now < 2 ^ 32 }
    ensures partition { IfOk result (λ cords. IsPartition cords) }
    ensures one_each { IfOk result (λ cords. length cords.of.items ≡ length symbols.now) }
    ensures same { IfOk result (λ cords. (k other : ℕ) → k < length symbols.now
        → other < length symbols.now
        → get_or symbols.now k 0 ≡ get_or symbols.now other 0
        → part_of cords.of.items k ≡ part_of cords.of.items other) }
{
    let mut seen = IndexSet::new(alloc);
    let mut numbers = Vec::with_capacity(alloc, symbols.len())?;
    for symbol in symbols {
        let (number, _) = seen.insert_full(*symbol)?;
        numbers.push(number as u32)?;
    }
    Partition::new(alloc, numbers, seen.len())
}

/// The moves that lead into a block.
fn entering(
    alloc: Global,
    edges: &[(u32, u32)],
    incoming: &Incoming,
    blocks: &Partition,
    block: u32,
) -> Result<Vec<u32>, Memory>
    requires known { All (λ edge. edge.0 < length blocks.now.of.items) edges.now }
    requires incoming { AreIncoming edges.now (length blocks.now.of.items) incoming.now }
    requires blocks { IsPartition blocks.now }
    requires block { block < length blocks.now.parts.items }
    ensures { IfOk result (λ listed.
        AreEntering edges.now blocks.now.of.items block listed.items) }
{
    let mut listed = Vec::new(alloc);
    for state in blocks.members(block) {
        let mut number = incoming.last[*state as usize];
        while number != 0 {
            listed.push(number - 1)?;
            number = incoming.earlier[number as usize - 1];
        }
    }
    Ok(listed)
}

/// The states from which moves of a cord lead to acceptance.
fn leaving(
    alloc: Global,
    edges: &[(u32, u32)],
    start: &[u32],
    cords: &Partition,
    cord: u32,
) -> Result<Vec<u32>, Memory>
    requires one_each { length cords.now.of.items ≡ length edges.now }
    requires known { All (λ edge. edge.0 < length start.now) edges.now }
    requires cords { IsPartition cords.now }
    requires cord { cord < length cords.now.parts.items }
    ensures { IfOk result (λ listed.
        AreLeaving edges.now start.now cords.now.of.items cord listed.items) }
{
    let mut listed = Vec::new(alloc);
    for number in cords.members(cord) {
        let (to, from) = edges[*number as usize];
        if start[to as usize] != 0 {
            listed.push(from)?;
        }
    }
    Ok(listed)
}
