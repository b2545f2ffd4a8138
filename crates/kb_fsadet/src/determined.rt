//! The subset construction. Rabin, Scott, Finite Automata and Their Decision Problems (1959).

ghost use Rattle.std.specs.Prelude.{◌≡◌, ◌≢◌, ◌↔◌, ℕ, List, Err, IsOk, IfOk};
ghost use Rattle.kb_fsa.specs.Table.{state_after};
ghost use Rattle.kb_fsa.specs.Language.{AcceptsText};
ghost use Rattle.kb_fsa.specs.Canonical.{AreReached};
ghost use Rattle.kb_fsa.specs.Counted.{MoreSetsThan};
ghost use Rattle.kb_explore.specs.declared.det.Det.TheVariants.{TooManyStates};
ghost use Rattle.kb_fsadet.specs.Nondeterministic.{LeadsSomehow, AcceptsSomehow};

use crate::nfa::Nfa;
use crate::subset::Subsets;
use kb_explore::{Det, explore};
use kb_fsa::Fsa;
use std::alloc::Global;

/// A deterministic automaton of the same language, whose states are the sets of states to which texts lead.
pub fn determinise(alloc: Global, nfa: &Nfa, limit: u32) -> Result<Fsa, Det>
    ensures language { IfOk result (λ fsa. (text : List ℕ)
        → AcceptsText fsa text ↔ AcceptsSomehow nfa.now text) }
    ensures alphabet { IfOk result (λ fsa. fsa.alphabet ≡ nfa.now.alphabet) }
    ensures leads { IfOk result (λ fsa. (text : List ℕ)
        → (state_after fsa.table text ≢ 0) ↔ ((state : ℕ) × LeadsSomehow nfa.now text state)) }
    ensures sets { IfOk result (λ fsa. (text other : List ℕ)
        → (state_after fsa.table text ≡ state_after fsa.table other)
        ↔ ((state : ℕ) → LeadsSomehow nfa.now text state ↔ LeadsSomehow nfa.now other state)) }
    ensures reached { IfOk result (λ fsa. AreReached fsa.table) }
    ensures few { IsOk result → ¬ MoreSetsThan (LeadsSomehow nfa.now) limit }
    ensures many { (most : ℕ) → result ≡ Err (TooManyStates most)
        → (most ≡ limit) × MoreSetsThan (LeadsSomehow nfa.now) limit }
{
    let exploration = explore(alloc, &Subsets { nfa }, limit)?;
    Ok(Fsa::new(nfa.alphabet(), exploration.table))
}
