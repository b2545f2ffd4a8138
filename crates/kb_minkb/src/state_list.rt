//! States of several automata.

ghost use Rattle.std.specs.Prelude.{◌≡◌, nat_eq, IfOk};
ghost use Rattle.std.specs.Cmp.{partial_equiv_from_equiv};
ghost use Rattle.std.specs.Cmp.Lexicographic.{pointwise, nat_list_eq_equiv};
ghost use Rattle.std.specs.Hash as fed;
ghost use Rattle.std.specs.Cmp.Rules.{hashing};
ghost use Rattle.std.proofs.Common.{rules};
ghost use Rattle.kb_minkb.specs.Rules.{has_state};

use kb_word::Memory;
use std::alloc::Global;
use std::hash::{Hash, Hasher};
use std::marker::Model;

/// A state of each of several automata, 0 for none.
#[derive(Debug, Drop)]
pub struct StateList {
    states: Vec<u32>,
}

impl Model for StateList {
    ghost use Rattle.std.specs.Prelude.{ℕ, List};

    ghost Value = { List ℕ };

    ghost view = { λ list. list.states.items };
}

impl StateList {
    /// The list of these states.
    pub(crate) fn from_vec(states: Vec<u32>) -> StateList
        ensures { result ≡ states.items }
    {
        StateList { states }
    }

    /// The states, in order.
    pub(crate) fn as_slice(&self) -> &[u32]
        ensures { result.now ≡ self.now }
    {
        self.states.as_slice()
    }

    /// The same states.
    pub(crate) fn copy(&self, alloc: Global) -> Result<StateList, Memory>
        ensures { IfOk result (λ list. list ≡ self.now) }
    {
        let states = Vec::from_slice(alloc, self.as_slice())?;
        Ok(StateList { states })
    }

    /// Whether one of them is a state.
    pub(crate) fn has_state(&self) -> bool
        ensures { result ≡ has_state self.now }
    {
        self.states.as_slice().iter().any(|state| *state != 0)
    }
}

impl PartialEq for StateList {
    ghost eq = { pointwise nat_eq };

    ghost laws = { partial_equiv_from_equiv nat_list_eq_equiv };

    fn eq(&self, other: &StateList) -> bool
        ensures { result ≡ pointwise nat_eq self.now other.now }
    {
        self.as_slice() == other.as_slice()
    }
}

impl Eq for StateList {
    ghost laws = { nat_list_eq_equiv };
}

impl Hash for StateList {
    ghost hash_input = { fed.slice fed.u32 };

    ghost respects_eq = { Prim.search (hashing, rules) };

    fn hash<H: Hasher>(&self, state: &mut H) {
        self.as_slice().hash(state);
    }
}
