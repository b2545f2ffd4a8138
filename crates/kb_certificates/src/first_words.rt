//! The first words of the pairs that a nondeterministic automaton accepts.
//!
//! Their automaton has the states that the one of pairs has, and moves (transitions) by first letters alone. After the
//! first word the second may go on: a state accepts where letters of the second word alone lead to acceptance, which is
//! found backwards from the states that accept. So it takes no more than the states and the moves of the pairs, where
//! an automaton that is made deterministic may have a state for each set of states; no clause says so.
//!
//! `kb_fsadet` has the same of deterministic automata of pairs.

ghost use Rattle.std.specs.Prelude.{◌≡◌, ◌↔◌, ◌<◌, ◌^◌, ◌++◌, ℕ, List, length, map, IfOk, OnOk};
ghost use Rattle.std.specs.List.{filter_map};
ghost use Rattle.kb_fsa.specs.declared.alphabet.Alphabet.TheVariants.{Plain, Pair};
ghost use Rattle.kb_fsa.specs.Language.{generators};
ghost use Rattle.kb_fsadet.specs.Nondeterministic.{AcceptsSomehow, IsNondeterministic};
ghost use Rattle.kb_fsadet.specs.FirstWords.{by_first, tail_edge, tail_edges};
ghost use Rattle.kb_certificates.specs.FirstWords.{AreEnds, HasSecond};

use kb_fsa::{Alphabet, PairSymbols, reached};
use kb_fsadet::{Branches, Nfa};
use kb_word::Memory;
use std::alloc::Global;

/// An automaton of the words beside which an automaton of pairs accepts some word, which may be longer. It accepts
/// where the second word may end the pair, at once or with letters of its own after the first word's end.
pub(crate) fn first_words(alloc: Global, pairs: &Nfa) -> Result<Nfa, Memory>
    requires { (n : ℕ) × (pairs.now.alphabet ≡ Pair n) }
    ensures language { IfOk result (λ words. (word : List ℕ)
        → AcceptsSomehow words word ↔ HasSecond pairs.now word) }
    ensures alphabet { IfOk result (λ words. words.alphabet
        ≡ Plain (generators pairs.now.alphabet)) }
    ensures automaton { IsNondeterministic pairs.now }
{
    let generators = pairs.alphabet().generators();
    let symbols = PairSymbols { n: generators };
    let initial = Vec::from_slice(alloc, pairs.initial())?;
    let rows = rows_by_first(alloc, pairs.rows(), symbols)?;
    let accepting = ends(alloc, pairs, symbols)?;
    Ok(Nfa::new(Alphabet::Plain(generators), initial, rows, accepting))
}

/// The moves of each state by first letters.
fn rows_by_first(
    alloc: Global,
    rows: &[Branches],
    symbols: PairSymbols,
) -> Result<Vec<Branches>, Memory>
    ensures { IfOk result
        (λ branches. branches.items ≡ map (filter_map (by_first symbols.n)) rows.now) }
{
    let mut branches = Vec::with_capacity(alloc, rows.len())?;
    for row in rows {
        branches.push(row_by_first(alloc, row, symbols)?)?;
    }
    Ok(branches)
}

/// The moves of a state by first letters.
fn row_by_first(alloc: Global, row: &Branches, symbols: PairSymbols) -> Result<Branches, Memory>
    ensures { IfOk result (λ branches. branches ≡ filter_map (by_first symbols.n) row.now) }
{
    let mut branches = Branches::new(alloc);
    for (symbol, target) in row.as_slice() {
        if !symbols.pads_first(*symbol) {
            branches.push(symbols.first(*symbol), *target)?;
        }
    }
    Ok(branches)
}

/// For states 1, 2, and so on whether letters of the second word alone lead to acceptance, or none do.
fn ends(alloc: Global, pairs: &Nfa, symbols: PairSymbols) -> Result<Vec<bool>, Memory>
    requires { pairs.now.alphabet ≡ Pair symbols.n }
    ensures { IfOk result (λ marks. AreEnds symbols.n pairs.now marks.items) }
{
    let mut seeds = vec![in alloc; false]?;
    seeds.extend_from_slice(pairs.accepting())?;
    let edges = tail_edges(alloc, pairs.rows(), symbols)?;
    let marks = reached(alloc, edges.as_slice(), seeds.as_slice())?;
    let of_states = Vec::from_slice(alloc, &marks[1..])?;
    Ok(of_states)
}

/// The moves after the first word, each from its target to its state.
fn tail_edges(
    alloc: Global,
    rows: &[Branches],
    symbols: PairSymbols,
) -> Result<Vec<(u32, u32)>, Memory>
    requires { length rows.now < 2 ^ 32 }
    ensures { IfOk result (λ edges. edges.items ≡ tail_edges symbols.n 1 rows.now) }
{
    let mut edges = Vec::new(alloc);
    let mut state = 0;
    for row in rows {
        state += 1;
        push_tail_edges(&mut edges, row, state, symbols)?;
    }
    Ok(edges)
}

/// Adds those of one state.
fn push_tail_edges(
    edges: &mut Vec<(u32, u32)>,
    row: &Branches,
    state: u32,
    symbols: PairSymbols,
) -> Result<(), Memory>
    ensures { OnOk result
        (edges.new.items ≡ edges.old.items ++ filter_map (tail_edge symbols.n state) row.now) }
{
    for (symbol, target) in row.as_slice() {
        if symbols.pads_first(*symbol) {
            edges.push((*target, state))?;
        }
    }
    Ok(())
}
