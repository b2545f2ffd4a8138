//! Tables of pairs without the moves that no padded text takes.

ghost use Rattle.std.specs.Prelude.{◌≡◌, ◌≢◌, ◌↔◌, ◌≤◌, ◌+◌, ◌-◌, ◌*◌, ◌^◌, ◌<◌, ℕ, suc, false, not, List, length, map, get_or, ◌∷◌, All, IsTrue, IfOk, IfErr, OnOk};
ghost use Rattle.std.specs.List.{filter};
ghost use Rattle.kb_fsa.specs.declared.alphabet.Alphabet.TheVariants.{Pair};
ghost use Rattle.kb_fsa.specs.Table.{HasSymbols, IsRow, state_after, AcceptsFrom};
ghost use Rattle.kb_fsa.specs.Padding.{IsPadded};
ghost use Rattle.kb_fsa.specs.Graphs.{IsMarked, IsReached};
ghost use Rattle.kb_fsa.specs.Moves.{AreBackward};
ghost use Rattle.kb_padding.specs.Misplaced.{IsCleaned, IsPaddingFault};
ghost use Rattle.kb_padding.specs.Cleaning.{turned, HaveSameEdges, pads, AreReachMarks, ArePaddedTargets, is_misplaced, is_dropped, IsAccepted, kept_rows};

use crate::error::PaddingFault;
use kb_fsa::{Backward, PairSymbols, Rows, Table, reached, reversed};
use kb_word::Memory;
use std::alloc::Global;

/// The table of an automaton of pairs over n letters that a table as it was given makes: that table without the moves
/// that some text takes with a letter after padding on one track, or by the pair of two paddings. It is refused where
/// such a move lies on an accepted text.
pub fn without_misplaced(alloc: Global, n: u16, read: Table) -> Result<Table, PaddingFault>
    requires generators { n ≤ 65534 }
    requires symbols { HasSymbols ((n + 1) * (n + 1)) read }
    ensures cleaned { IfOk result (IsCleaned (Pair n) read) }
    ensures symbols { IfOk result (HasSymbols ((n + 1) * (n + 1) - 1)) }
    ensures texts { IfOk result (λ table. (text : List ℕ) → state_after table text ≢ 0 → IsPadded n text) }
    ensures fault { IfErr result (IsPaddingFault n read) }
{
    let reach = checked_reach(alloc, n, &read)?;
    let rows = kept_rows(alloc, n, read.rows(), &reach)?;
    let accepting = Vec::from_slice(alloc, read.accepting())?;
    Ok(Table::new(read.initial(), rows, accepting))
}

/// What leads to the states of the table, which is refused where a misplaced move lies on an accepted text. The moves
/// that are listed for that are let go.
fn checked_reach(alloc: Global, n: u16, table: &Table) -> Result<Reach, PaddingFault>
    requires generators { n ≤ 65534 }
    requires symbols { HasSymbols ((n + 1) * (n + 1)) table.now }
    ensures reach { IfOk result
        (λ reach. AreReachMarks n table.now reach.marks.items reach.first.items
        reach.second.items) }
    ensures padded { OnOk result
        ((text : List ℕ) → AcceptsFrom table.now table.now.initial text → IsPadded n text) }
    ensures fault { IfErr result (IsPaddingFault n table.now) }
{
    let moves = reversed(alloc, table)?;
    let edges = forward(alloc, moves.edges.as_slice(), table.rows().len() + 1)?;
    let reach = reach_of(alloc, n, table, &moves, edges.as_slice())?;
    let live = live_along(alloc, table, edges.as_slice())?;
    if accepts_misplaced(n, &moves, &reach, live.as_slice()) {
        return Err(PaddingFault::Inside);
    }
    Ok(reach)
}

/// One of the words of a pair, letter by letter, and its padding.
#[derive(Clone, Copy)]
pub(crate) enum Track {
    First,
    Second,
}

impl Track {
    /// Whether the symbol has padding on the track.
    fn pads(self, n: u16, symbol: u32) -> bool
        requires { n ≤ 65534 }
        ensures { result ≡ pads self n symbol }
    {
        let symbols = PairSymbols { n };
        match self {
            Track::First => symbols.pads_first(symbol),
            Track::Second => symbols.pads_second(symbol),
        }
    }
}

/// For state 0, that is no state, and the states from 1 on, what leads to them.
#[derive(Drop)]
struct Reach {
    /// Whether a text does.
    marks: Vec<bool>,
    /// Whether a text with padding on the first track does.
    first: Vec<bool>,
    /// Whether a text with padding on the second track does.
    second: Vec<bool>,
}

impl Reach {
    /// Whether a text takes the state's move by the symbol where the symbol is out of place.
    fn is_misplaced(&self, n: u16, state: u32, symbol: u32) -> bool
        requires { n ≤ 65534 }
        ensures { result
            ≡ is_misplaced n self.now.marks.items self.now.first.items
            self.now.second.items state symbol }
    {
        let first = Track::First.pads(n, symbol);
        let second = Track::Second.pads(n, symbol);
        is_marked(self.marks.as_slice(), state)
            && (is_marked(self.first.as_slice(), state) && !first
                || is_marked(self.second.as_slice(), state) && !second
                || first && second)
    }

    /// Whether no padded text takes the state's move by the symbol.
    fn drops(&self, n: u16, state: u32, symbol: u32) -> bool
        requires { n ≤ 65534 }
        ensures { result
            ≡ is_dropped n self.now.marks.items self.now.first.items
            self.now.second.items state symbol }
    {
        let paddings = PairSymbols { n }.count() + 1;
        self.is_misplaced(n, state, symbol) || symbol == paddings
    }
}

/// Whether the state has a mark.
fn is_marked(marks: &[bool], state: u32) -> bool
    ensures { result ≡ get_or marks.now state false }
{
    marks.get(state as usize).copied().unwrap_or(false)
}

/// The edges along moves that are listed backwards. One that is already the latest to its target isn't added again: of
/// moves that are listed state by state each edge stands once.
fn forward(alloc: Global, backward: &[(u32, u32)], count: usize) -> Result<Vec<(u32, u32)>, Memory>
    requires { All (λ edge. (edge.0 < count) × (0 < edge.1)) backward.now }
    ensures { IfOk result (λ edges. HaveSameEdges edges.items (turned backward.now)) }
{
    let mut latest = vec![in alloc; 0; count]?;
    let mut edges = Vec::new(alloc);
    for (target, state) in backward {
        if latest[*target as usize] != *state {
            latest[*target as usize] = *state;
            edges.push((*state, *target))?;
        }
    }
    Ok(edges)
}

/// What leads to the states of the table, whose moves these are, along these edges.
fn reach_of(
    alloc: Global,
    n: u16,
    table: &Table,
    moves: &Backward,
    edges: &[(u32, u32)],
) -> Result<Reach, Memory>
    requires generators { n ≤ 65534 }
    requires moves { AreBackward table.now (suc (length table.now.rows)) 0 moves.now.edges.items
        moves.now.symbols.items }
    requires edges { HaveSameEdges edges.now (turned moves.now.edges.items) }
    ensures { IfOk result
        (λ reach. AreReachMarks n table.now reach.marks.items reach.first.items
        reach.second.items) }
{
    let mut start = vec![in alloc; false; table.rows().len() + 1]?;
    start[table.initial() as usize] = true;
    let marks = reached(alloc, edges, start.as_slice())?;
    let targets = padded_targets(alloc, n, Track::First, moves, marks.as_slice())?;
    let first = reached(alloc, edges, targets.as_slice())?;
    let targets = padded_targets(alloc, n, Track::Second, moves, marks.as_slice())?;
    let second = reached(alloc, edges, targets.as_slice())?;
    Ok(Reach {
        marks,
        first,
        second,
    })
}

/// For state 0, that is no state, and the states from 1 on, whether edges of the table lead to acceptance.
fn live_along(alloc: Global, table: &Table, edges: &[(u32, u32)]) -> Result<Vec<bool>, Memory>
    requires { All
        (λ edge. (edge.0 < length table.now.rows + 1) × (edge.1 < length table.now.rows + 1))
        edges.now }
    ensures { IfOk result
        (λ marks. (state : ℕ)
        → IsMarked marks.items state
        ↔ IsReached (turned edges.now) (false ∷ table.now.accepting) state) }
{
    let back = backward(alloc, edges)?;
    let mut seeds = vec![in alloc; false]?;
    seeds.extend_from_slice(table.accepting())?;
    reached(alloc, back.as_slice(), seeds.as_slice())
}

/// The edges backwards.
fn backward(alloc: Global, edges: &[(u32, u32)]) -> Result<Vec<(u32, u32)>, Memory>
    ensures { IfOk result (λ back. back.items ≡ turned edges.now) }
{
    let back = edges.iter().map(|edge| (edge.1, edge.0)).collect(alloc)?;
    Ok(back)
}

/// The marks of the targets of moves from marked states by symbols with padding on the track.
fn padded_targets(
    alloc: Global,
    n: u16,
    track: Track,
    moves: &Backward,
    marks: &[bool],
) -> Result<Vec<bool>, Memory>
    requires generators { n ≤ 65534 }
    requires one_each { length moves.now.symbols.items ≡ length moves.now.edges.items }
    requires targets { All (λ edge. edge.0 < length marks.now) moves.now.edges.items }
    ensures { IfOk result
        (λ targets. ArePaddedTargets track n moves.now.edges.items moves.now.symbols.items marks.now
        (length moves.now.edges.items) targets.items) }
{
    let mut targets = vec![in alloc; false; marks.len()]?;
    for ((target, state), symbol) in moves.edges.iter().zip(moves.symbols.as_slice()) {
        if is_marked(marks, *state) && track.pads(n, *symbol) {
            targets[*target as usize] = true;
        }
    }
    Ok(targets)
}

/// Whether a move is misplaced, and leads to acceptance.
fn accepts_misplaced(n: u16, moves: &Backward, reach: &Reach, live: &[bool]) -> bool
    requires generators { n ≤ 65534 }
    requires one_each { length moves.now.symbols.items ≡ length moves.now.edges.items }
    ensures { IsTrue result
        ↔ ((place : ℕ) × IsAccepted n moves.now.edges.items moves.now.symbols.items
        reach.now.marks.items reach.now.first.items reach.now.second.items live.now place) }
{
    for ((target, state), symbol) in moves.edges.iter().zip(moves.symbols.as_slice()) {
        if is_marked(live, *target) && reach.is_misplaced(n, *state, *symbol) {
            return true;
        }
    }
    false
}

/// The rows of states 1, 2, and so on without the moves that no padded text takes.
fn kept_rows(alloc: Global, n: u16, rows: &Rows, reach: &Reach) -> Result<Rows, Memory>
    requires generators { n ≤ 65534 }
    requires size { length rows.now < 2 ^ 32 }
    ensures { IfOk result (λ kept. kept
        ≡ kept_rows (is_dropped n reach.now.marks.items reach.now.first.items
        reach.now.second.items) 1 rows.now) }
{
    let mut kept = Rows::new(alloc)?;
    let mut state = 0;
    for place in 0..rows.len() {
        state += 1;
        let row = kept_row(alloc, n, rows.get(place), state, reach)?;
        kept.push(row.as_slice())?;
    }
    Ok(kept)
}

/// The state's row without the moves that no padded text takes.
fn kept_row(
    alloc: Global,
    n: u16,
    row: &[(u32, u32)],
    state: u32,
    reach: &Reach,
) -> Result<Vec<(u32, u32)>, Memory>
    requires generators { n ≤ 65534 }
    requires row { IsRow row.now }
    ensures kept { IfOk result (λ kept. kept.items
        ≡ filter (λ move.
        not (is_dropped n reach.now.marks.items reach.now.first.items reach.now.second.items state
        move.0)) row.now) }
    ensures row { IfOk result (λ kept. IsRow kept.items) }
{
    let mut kept = Vec::with_capacity(alloc, row.len())?;
    for (symbol, target) in row {
        if !reach.drops(n, state, *symbol) {
            kept.push((*symbol, *target))?;
        }
    }
    Ok(kept)
}
