//! Products of any number of words.

ghost use Rattle.std.specs.Prelude.{◌≡◌, ◌↔◌, ◌∷◌, ◌++◌, [], ℕ, map, Err, IsOk, IfOk, IsTrue};
ghost use Rattle.kb_fsa.specs.Counted.{CountedStar};
ghost use Rattle.kb_fsa.specs.declared.alphabet.Alphabet.TheVariants.{Plain};
ghost use Rattle.kb_explore.specs.declared.det.Det.TheVariants.{TooManyStates};
ghost use Rattle.kb_fsarat.specs.Products.{IsStar};
ghost use Rattle.kb_fsarat.specs.Restarts.{restarting};
ghost use Rattle.kb_fsarat.specs.Chains.{start_of};
ghost use Rattle.kb_fsarat.specs.Repetitions.{IsStarNfa, LacksMove};

use crate::answers::only_state;
use crate::restarts::restarting_rows;
use kb_explore::Det;
use kb_fsa::{Fsa, Table};
use kb_fsadet::{Branches, Nfa, determinise};
use kb_word::Memory;
use std::alloc::Global;

/// An automaton of all products of accepted words, the empty word among them.
pub fn star(alloc: Global, one: &Fsa, limit: u32) -> Result<Fsa, Det>
    requires plain { (n : ℕ) × (one.now.alphabet ≡ Plain n) }
    ensures language { IfOk result (IsStar one.now) }
    ensures alphabet { IfOk result (λ answer. answer.alphabet ≡ one.now.alphabet) }
    ensures few { IsOk result → ¬ CountedStar one.now limit }
    ensures many { (most : ℕ) → result ≡ Err (TooManyStates most)
        → (most ≡ limit) × CountedStar one.now limit }
{
    let products = star_nfa(alloc, one)?;
    let answer = determinise(alloc, &products, limit)?;
    // The empty set of states is counted too, where a word leads to it. It is none of the answer's
    // states, each of which some word leads to: so a word leads to it exactly where one of them
    // lacks a move.
    if answer.len() >= limit && lacks_move(&answer) {
        return Err(Det::TooManyStates { limit });
    }
    Ok(answer)
}

/// Whether some state has no move by some letter.
fn lacks_move(fsa: &Fsa) -> bool
    ensures { IsTrue result ↔ LacksMove fsa.now }
{
    let symbols = fsa.alphabet().symbols() as usize;
    let rows = fsa.table().rows();
    for place in 0..rows.len() {
        if rows.get(place).len() < symbols {
            return true;
        }
    }
    false
}

/// The automaton with one state more, the mark, which accepts and to which the products lead. After each product it
/// starts again.
fn star_nfa(alloc: Global, one: &Fsa) -> Result<Nfa, Memory>
    requires { (n : ℕ) × (one.now.alphabet ≡ Plain n) }
    ensures alphabet { IfOk result (λ nfa. nfa.alphabet ≡ one.now.alphabet) }
    ensures sets { IfOk result (IsStarNfa one.now) }
{
    let table = one.table();
    // No state has a number of more than 32 bits.
    let Some(mark) = table.len().checked_add(1) else {
        return Err(Memory);
    };
    let initial = starts_at(alloc, mark, table.initial())?;
    let rows = star_rows(alloc, table, initial.as_slice())?;
    let accepting = only_state(alloc, mark, rows.len())?;
    Ok(Nfa::new(one.alphabet(), initial, rows, accepting))
}

/// The rows of the table, where each move to an accepting state is also one by its symbol to each start, and then that
/// of the mark.
fn star_rows(alloc: Global, table: &Table, starts: &[u32]) -> Result<Vec<Branches>, Memory>
    ensures { IfOk result (λ rows.
        rows.items ≡ map (restarting table.now starts.now) table.now.rows ++ [] ∷ []) }
{
    let mut rows = restarting_rows(alloc, table, starts)?;
    rows.push(Branches::new(alloc))?;
    Ok(rows)
}

/// The mark, and the initial state if there is one.
fn starts_at(alloc: Global, mark: u32, initial: u32) -> Result<Vec<u32>, Memory>
    ensures { IfOk result (λ starts. starts.items ≡ mark ∷ start_of initial) }
{
    let mut starts = Vec::new(alloc);
    starts.push(mark)?;
    if initial != 0 {
        starts.push(initial)?;
    }
    Ok(starts)
}
