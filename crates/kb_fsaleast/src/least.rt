//! The least text.

ghost use Rattle.std.specs.Prelude.{◌≡◌, ℕ, List, IfOk, IfSome, IfNone};
ghost use Rattle.kb_fsadet.specs.Nondeterministic.{AcceptsSomehow};
ghost use Rattle.kb_fsadet.specs.Avoidance.{any_accepts};
ghost use Rattle.kb_fsaleast.specs.LeastText.{IsLeastAccepted};

use crate::classes::{follow, start};
use kb_explore::text_to;
use kb_fsadet::Nfa;
use kb_word::Memory;
use std::alloc::Global;

/// The least text that the automaton accepts, in the shortlex order; `None` where it accepts none.
pub fn least_text(alloc: Global, nfa: &Nfa) -> Result<Option<Vec<u32>>, Memory>
    ensures found { IfOk result (λ found.
        IfSome found (λ text. IsLeastAccepted nfa.now text.items)) }
    ensures none { IfOk result (λ found.
        IfNone found ((text : List ℕ) → ¬ AcceptsSomehow nfa.now text)) }
{
    let mut classes = start(alloc, nfa)?;
    let mut followed = 0;
    while followed < classes.members.len() {
        if any_accepts(nfa, classes.members[followed].as_slice()) {
            let text = text_to(alloc, classes.origins.as_slice(), followed as u32 + 1)?;
            return Ok(Some(text));
        }
        follow(alloc, nfa, &mut classes, followed)?;
        followed += 1;
    }
    Ok(None)
}

/// Whether one of the states accepts.
fn any_accepts(nfa: &Nfa, states: &[u32]) -> bool
    ensures { result ≡ any_accepts nfa.now states.now }
{
    states.iter().any(|state| nfa.is_accepting(*state))
}
