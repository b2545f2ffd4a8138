//! Words read backwards.

ghost use Rattle.std.specs.Prelude.{◌≡◌, ◌↔◌, ◌<◌, ◌≤◌, ◌^◌, ℕ, [], Err, IsOk, IfOk, OnOk, List, length, replicate, reverse, All, Contains};
ghost use Rattle.kb_fsa.specs.Language.{Accepts};
ghost use Rattle.kb_fsa.specs.Counted.{CountedReverse, IsBefore};
ghost use Rattle.kb_fsa.specs.declared.alphabet.Alphabet.TheVariants.{Plain};
ghost use Rattle.kb_explore.specs.declared.det.Det.TheVariants.{TooManyStates};
ghost use Rattle.kb_fsadet.specs.Nondeterministic.{LeadsSomehow, AcceptsSomehow};
ghost use Rattle.kb_fsarat.specs.Products.{IsReversal};
ghost use Rattle.kb_fsarat.specs.Reversal.{HaveAdded, TurnsOne, TurnsFirst, IsListed};

use crate::answers::only_state;
use kb_explore::Det;
use kb_fsa::{Fsa, Rows};
use kb_fsadet::{Branches, Nfa, determinise};
use kb_word::Memory;
use std::alloc::Global;

/// An automaton of the words that read backwards are accepted.
pub fn reverse(alloc: Global, one: &Fsa, limit: u32) -> Result<Fsa, Det>
    requires plain { (n : ℕ) × (one.now.alphabet ≡ Plain n) }
    ensures language { IfOk result (IsReversal one.now) }
    ensures alphabet { IfOk result (λ answer. answer.alphabet ≡ one.now.alphabet) }
    ensures few { IsOk result → ¬ CountedReverse one.now limit }
    ensures many { (most : ℕ) → result ≡ Err (TooManyStates most)
        → (most ≡ limit) × CountedReverse one.now limit }
{
    let backwards = reversed_nfa(alloc, one)?;
    determinise(alloc, &backwards, limit)
}

/// The automaton with each move turned round, which starts at the accepting states and accepts at the initial one.
fn reversed_nfa(alloc: Global, one: &Fsa) -> Result<Nfa, Memory>
    requires { (n : ℕ) × (one.now.alphabet ≡ Plain n) }
    ensures alphabet { IfOk result (λ nfa. nfa.alphabet ≡ one.now.alphabet) }
    ensures sets { IfOk result (λ nfa. (text : List ℕ) (state : ℕ)
        → LeadsSomehow nfa text state ↔ IsBefore one.now text state) }
    ensures language { IfOk result (λ nfa. (text : List ℕ)
        → AcceptsSomehow nfa text ↔ Accepts one.now (reverse text)) }
{
    let table = one.table();
    let rows = reversed_rows(alloc, table.rows())?;
    let initial = accepting_states(alloc, table.accepting())?;
    let accepting = only_state(alloc, table.initial(), table.rows().len())?;
    Ok(Nfa::new(one.alphabet(), initial, rows, accepting))
}

/// The rows' moves turned round.
pub(crate) fn reversed_rows(alloc: Global, rows: &Rows) -> Result<Vec<Branches>, Memory>
    requires size { length rows.now < 2 ^ 32 }
    requires targets { All (All (λ move. (0 < move.1) × (move.1 ≤ length rows.now))) rows.now }
    ensures { IfOk result (λ turned. HaveAdded (replicate (length rows.now) []) turned.items
        (TurnsFirst rows.now (length rows.now))) }
{
    let mut turned = empty_rows(alloc, rows.len())?;
    for place in 0..rows.len() {
        add_reversed(turned.as_mut_slice(), place as u32 + 1, rows.get(place))?;
    }
    Ok(turned)
}

/// So many rows without moves.
fn empty_rows(alloc: Global, count: usize) -> Result<Vec<Branches>, Memory>
    ensures { IfOk result (λ rows. rows.items ≡ replicate count []) }
{
    let mut rows = Vec::with_capacity(alloc, count)?;
    for _ in 0..count {
        rows.push(Branches::new(alloc))?;
    }
    Ok(rows)
}

/// Adds the moves of a state, turned round.
fn add_reversed(turned: &mut [Branches], state: u32, moves: &[(u32, u32)]) -> Result<(), Memory>
    requires { All (λ move. (0 < move.1) × (move.1 ≤ length turned.old)) moves.now }
    ensures { OnOk result (HaveAdded turned.old turned.new (TurnsOne state moves.now)) }
{
    for (symbol, target) in moves {
        let row = &mut turned[*target as usize - 1];
        row.push(*symbol, state)?;
    }
    Ok(())
}

/// The numbers of the states that accept.
pub(crate) fn accepting_states(alloc: Global, accepting: &[bool]) -> Result<Vec<u32>, Memory>
    requires { length accepting.now < 2 ^ 32 }
    ensures { IfOk result (λ states. (state : ℕ)
        → Contains states.items state ↔ IsListed accepting.now (length accepting.now) state) }
{
    let mut states = Vec::new(alloc);
    for (place, accepts) in accepting.iter().enumerate() {
        if *accepts {
            states.push(place as u32 + 1)?;
        }
    }
    Ok(states)
}
