//! Products of words of two automata.

ghost use Rattle.std.specs.Prelude.{◌≡◌, ◌↔◌, ◌+◌, ◌<◌, ◌≤◌, ◌^◌, ◌++◌, ℕ, List, Err, IsOk, IfOk, false, length, map, replicate, All};
ghost use Rattle.kb_fsa.specs.Table.{IsTable};
ghost use Rattle.kb_fsa.specs.Counted.{CountedConcat, IsAfterConcat};
ghost use Rattle.kb_fsa.specs.declared.alphabet.Alphabet.TheVariants.{Plain};
ghost use Rattle.kb_explore.specs.declared.det.Det.TheVariants.{TooManyStates};
ghost use Rattle.kb_fsadet.specs.Nondeterministic.{LeadsSomehow, AcceptsSomehow};
ghost use Rattle.kb_fsarat.specs.Products.{IsConcatenation, IsSplit};
ghost use Rattle.kb_fsarat.specs.Restarts.{restarting, shifted};
ghost use Rattle.kb_fsarat.specs.Chains.{of_two, start_after, initial_with};

use crate::answers::after_falses;
use crate::restarts::restarting_rows;
use kb_explore::Det;
use kb_fsa::{Fsa, Table};
use kb_fsadet::{Branches, Nfa, determinise};
use kb_word::Memory;
use std::alloc::Global;

/// An automaton of the products of a word of the first and a word of the second.
pub fn concat(alloc: Global, one: &Fsa, two: &Fsa, limit: u32) -> Result<Fsa, Det>
    requires plain { (n : ℕ) × (one.now.alphabet ≡ Plain n) }
    requires alphabets { one.now.alphabet ≡ two.now.alphabet }
    ensures language { IfOk result (IsConcatenation one.now two.now) }
    ensures alphabet { IfOk result (λ answer. answer.alphabet ≡ one.now.alphabet) }
    ensures few { IsOk result → ¬ CountedConcat one.now two.now limit }
    ensures many { (most : ℕ) → result ≡ Err (TooManyStates most)
        → (most ≡ limit) × CountedConcat one.now two.now limit }
{
    let both = concat_nfa(alloc, one, two)?;
    determinise(alloc, &both, limit)
}

/// One automaton of the states of both, those of the second numbered after those of the first. Where the first
/// accepts, the second starts.
fn concat_nfa(alloc: Global, one: &Fsa, two: &Fsa) -> Result<Nfa, Memory>
    requires plain { (n : ℕ) × (one.now.alphabet ≡ Plain n) }
    requires alphabets { one.now.alphabet ≡ two.now.alphabet }
    ensures alphabet { IfOk result (λ nfa. nfa.alphabet ≡ one.now.alphabet) }
    ensures sets { IfOk result (λ nfa. (text : List ℕ) (state : ℕ) → LeadsSomehow nfa text state
        ↔ IsAfterConcat one.now two.now text (of_two (length one.now.table.rows) state)) }
    ensures language { IfOk result (λ nfa. (text : List ℕ)
        → AcceptsSomehow nfa text ↔ IsSplit one.now two.now text) }
    ensures table { IfOk result (λ _. IsTable one.now.table) }
{
    let (first, second) = (one.table(), two.table());
    // No state has a number of more than 32 bits.
    if first.len().checked_add(second.len()).is_none() {
        return Err(Memory);
    }
    let start = start_after(alloc, first.len(), second.initial())?;
    let starts = start.as_slice();
    let initial = initial_with(alloc, first, starts)?;
    let rows = concat_rows(alloc, first, starts, second)?;
    let accepting = after_falses(alloc, first.rows().len(), second.accepting())?;
    Ok(Nfa::new(one.alphabet(), initial, rows, accepting))
}

/// The initial state of the second automaton, if it has one, by its number after so many others.
fn start_after(alloc: Global, count: u32, initial: u32) -> Result<Vec<u32>, Memory>
    requires { count + initial < 2 ^ 32 }
    ensures { IfOk result (λ start. start.items ≡ start_after count initial) }
{
    let mut start = Vec::new(alloc);
    if initial != 0 {
        start.push(count + initial)?;
    }
    Ok(start)
}

/// The initial state, and the other starts where the empty word is accepted.
fn initial_with(alloc: Global, table: &Table, starts: &[u32]) -> Result<Vec<u32>, Memory>
    ensures { IfOk result (λ initial. initial.items ≡ initial_with table.now starts.now) }
{
    let mut initial = start_after(alloc, 0, table.initial())?;
    if table.is_accepting(table.initial()) {
        initial.extend_from_slice(starts)?;
    }
    Ok(initial)
}

/// The rows of both automata; in those of the first, where a move leads to acceptance there is also one by its
/// symbol to each start.
fn concat_rows(
    alloc: Global,
    first: &Table,
    starts: &[u32],
    second: &Table,
) -> Result<Vec<Branches>, Memory>
    requires { length first.now.rows + length second.now.rows < 2 ^ 32 }
    ensures { IfOk result (λ rows. rows.items ≡ map (restarting first.now starts.now) first.now.rows
        ++ map (shifted (length first.now.rows)) second.now.rows) }
{
    let mut rows = restarting_rows(alloc, first, starts)?;
    let others = second.rows();
    for place in 0..others.len() {
        rows.push(shifted_row(alloc, first.len(), others.get(place))?)?;
    }
    Ok(rows)
}

/// The same moves between states that are numbered after so many others.
fn shifted_row(alloc: Global, count: u32, moves: &[(u32, u32)]) -> Result<Branches, Memory>
    requires { All (λ move. count + move.1 < 2 ^ 32) moves.now }
    ensures { IfOk result (λ row. row ≡ shifted count moves.now) }
{
    let mut row = Branches::new(alloc);
    for (symbol, target) in moves {
        row.push(*symbol, count + *target)?;
    }
    Ok(row)
}
