//! Sets of states.

ghost use Rattle.std.specs.Prelude.{◌≡◌, ◌↔◌, ℕ, nat_eq, IsTrue};
ghost use Rattle.std.specs.Cmp.{partial_equiv_from_equiv};
ghost use Rattle.std.specs.Cmp.Lexicographic.{pointwise, nat_list_eq_equiv};
ghost use Rattle.std.specs.Hash as fed;
ghost use Rattle.std.specs.Cmp.Rules.{hashing};
ghost use Rattle.std.proofs.Common.{rules};
ghost use Rattle.kb_fsadet.specs.SubsetConstruction.{IsAscending, is_member, set_of};

use std::hash::{Hash, Hasher};
use std::marker::Model;

/// A set of states: its members' numbers, ascending.
#[derive(Debug, Drop)]
pub struct StateSet {
    members: Vec<u32>,
}

impl Model for StateSet {
    ghost use Rattle.std.specs.Prelude.{ℕ, List};
    ghost use Rattle.kb_fsadet.specs.SubsetConstruction.{IsAscending};

    ghost Value = { List ℕ };

    ghost view = { λ set. set.members.items };

    ghost invariant = { λ set. IsAscending set.members.items };
}

impl StateSet {
    /// The set of these states, which may be in any order.
    pub fn of(mut members: Vec<u32>) -> StateSet
        ensures { result ≡ set_of members.items }
    {
        members.sort_unstable();
        members.dedup();
        members.shrink_to_fit();
        StateSet { members }
    }

    /// The set of these states, which ascend.
    pub(crate) fn ascending(members: Vec<u32>) -> StateSet
        requires { IsAscending members.items }
        ensures { result ≡ members.items }
    {
        StateSet { members }
    }

    /// The members, ascending.
    pub fn as_slice(&self) -> &[u32]
        ensures { result.now ≡ self.now }
    {
        self.members.as_slice()
    }

    /// Whether the state is a member. The search halves the members at each look.
    pub fn contains(&self, state: u32) -> bool
        ensures { result ≡ is_member self.now state }
    {
        self.members.as_slice().binary_search(&state).is_ok()
    }

    /// Whether there are no members.
    pub fn is_empty(&self) -> bool
        ensures { IsTrue result ↔ ((state : ℕ) → ¬ IsTrue (is_member self.now state)) }
    {
        self.members.is_empty()
    }
}

impl PartialEq for StateSet {
    ghost eq = { pointwise nat_eq };

    ghost laws = { partial_equiv_from_equiv nat_list_eq_equiv };

    fn eq(&self, other: &StateSet) -> bool
        ensures { result ≡ pointwise nat_eq self.now other.now }
    {
        self.as_slice() == other.as_slice()
    }
}

impl Eq for StateSet {
    ghost laws = { nat_list_eq_equiv };
}

impl Hash for StateSet {
    ghost hash_input = { fed.slice fed.u32 };

    ghost respects_eq = { Prim.search (hashing, rules) };

    fn hash<H: Hasher>(&self, state: &mut H) {
        self.as_slice().hash(state);
    }
}
