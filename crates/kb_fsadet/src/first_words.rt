//! The nondeterministic automaton of the first words of pairs.

ghost use Rattle.std.specs.Prelude.{◌≡◌, ◌<◌, ◌≤◌, ◌^◌, ◌++◌, ℕ, length, map, IfOk, OnOk};
ghost use Rattle.std.specs.List.{filter_map};
ghost use Rattle.kb_fsa.specs.Table.{HasSymbols};
ghost use Rattle.kb_fsa.specs.Language.{IsAutomaton, symbols};
ghost use Rattle.kb_fsa.specs.declared.alphabet.Alphabet.TheVariants.{Pair};
ghost use Rattle.kb_fsadet.specs.FirstWords.{by_first, tail_edge, tail_edges, where_some, AreEnds, IsFirstWords};

use crate::nfa::{Branches, Nfa};
use kb_fsa::{Alphabet, Fsa, PairSymbols, Rows, Table, reached};
use kb_word::Memory;
use std::alloc::Global;

/// The automaton that reads first words alone. It accepts where the second word may end the pair, at once or with
/// letters of its own after the first word's end.
pub fn automaton_of_first_words(alloc: Global, pairs: &Fsa) -> Result<Nfa, Memory>
    requires { (n : ℕ) × (pairs.now.alphabet ≡ Pair n) }
    ensures reads { IfOk result (IsFirstWords pairs.now) }
    ensures automaton { IsAutomaton pairs.now }
{
    let generators = pairs.alphabet().generators();
    let table = pairs.table();
    let initial = initial_states(alloc, table)?;
    let rows = rows_by_first(alloc, table.rows(), PairSymbols { n: generators })?;
    let accepting = ends(alloc, table, generators)?;
    Ok(Nfa::new(Alphabet::Plain(generators), initial, rows, accepting))
}

/// The initial state, where there is one.
fn initial_states(alloc: Global, table: &Table) -> Result<Vec<u32>, Memory>
    ensures { IfOk result (λ states. states.items ≡ where_some table.now.initial) }
{
    let mut states = Vec::new(alloc);
    let initial = table.initial();
    if initial != 0 {
        states.push(initial)?;
    }
    Ok(states)
}

/// The moves of each state by first letters.
fn rows_by_first(alloc: Global, rows: &Rows, symbols: PairSymbols) -> Result<Vec<Branches>, Memory>
    ensures { IfOk result
        (λ branches. branches.items ≡ map (filter_map (by_first symbols.n)) rows.now) }
{
    let mut branches = Vec::with_capacity(alloc, rows.len())?;
    for place in 0..rows.len() {
        branches.push(row_by_first(alloc, rows.get(place), symbols)?)?;
    }
    Ok(branches)
}

/// The moves of a state by first letters.
fn row_by_first(alloc: Global, row: &[(u32, u32)], symbols: PairSymbols) -> Result<Branches, Memory>
    ensures { IfOk result (λ branches. branches ≡ filter_map (by_first symbols.n) row.now) }
{
    let mut branches = Branches::new(alloc);
    for (symbol, target) in row {
        if !symbols.pads_first(*symbol) {
            branches.push(symbols.first(*symbol), *target)?;
        }
    }
    Ok(branches)
}

/// For states 1, 2, and so on whether letters of the second word alone lead to acceptance, or none do.
fn ends(alloc: Global, table: &Table, generators: u16) -> Result<Vec<bool>, Memory>
    requires generators { generators ≤ 65534 }
    requires symbols { HasSymbols (symbols (Pair generators)) table.now }
    ensures { IfOk result (λ marks. AreEnds generators table.now marks.items) }
{
    let mut seeds = vec![in alloc; false]?;
    seeds.extend_from_slice(table.accepting())?;
    let edges = tail_edges(alloc, table.rows(), PairSymbols { n: generators })?;
    let marks = reached(alloc, edges.as_slice(), seeds.as_slice())?;
    let of_states = Vec::from_slice(alloc, &marks[1..])?;
    Ok(of_states)
}

/// The moves after the first word, each from its target to its state.
fn tail_edges(alloc: Global, rows: &Rows, symbols: PairSymbols) -> Result<Vec<(u32, u32)>, Memory>
    requires { length rows.now < 2 ^ 32 }
    ensures { IfOk result (λ edges. edges.items ≡ tail_edges symbols.n 1 rows.now) }
{
    let mut edges = Vec::new(alloc);
    let mut state = 0;
    for place in 0..rows.len() {
        state += 1;
        push_tail_edges(&mut edges, rows.get(place), state, symbols)?;
    }
    Ok(edges)
}

/// Adds those of one state.
fn push_tail_edges(
    edges: &mut Vec<(u32, u32)>,
    row: &[(u32, u32)],
    state: u32,
    symbols: PairSymbols,
) -> Result<(), Memory>
    ensures { OnOk result
        (edges.new.items ≡ edges.old.items ++ filter_map (tail_edge symbols.n state) row.now) }
{
    for (symbol, target) in row {
        if symbols.pads_first(*symbol) {
            edges.push((*target, state))?;
        }
    }
    Ok(())
}
