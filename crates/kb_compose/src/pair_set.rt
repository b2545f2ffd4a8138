//! Sets of pairs of states.

ghost use Rattle.std.specs.Prelude.{◌≡◌, ◌+◌, ◌*◌, ◌^◌, [], nat_eq, IfOk};
ghost use Rattle.std.specs.Cmp.{partial_equiv_from_equiv};
ghost use Rattle.std.specs.Cmp.Lexicographic.{pointwise, nat_list_eq_equiv};
ghost use Rattle.std.specs.Hash as fed;
ghost use Rattle.std.specs.Cmp.Rules.{hashing};
ghost use Rattle.std.proofs.Common.{rules};
ghost use Rattle.kb_fsadet.specs.SubsetConstruction.{IsAscending, is_member, set_of};
ghost use Rattle.kb_compose.specs.StatePairs.{number_of, first_state, second_state};

use kb_word::Memory;
use std::alloc::Global;
use std::hash::{Hash, Hasher};
use std::marker::Model;

/// By how much the numbers of two first states that follow one another are apart.
const STRIDE: u64 = 1 << 32;

/// The number of a pair of states. Numbers are sorted and compared faster than pairs.
pub(crate) fn number_of(first: u32, second: u32) -> u64
    ensures { result ≡ number_of first second }
{
    u64::from(first) * STRIDE + u64::from(second)
}

/// The first state of the pair of this number.
pub(crate) fn first_state(pair: u64) -> u32
    ensures { result ≡ first_state pair }
{
    (pair / STRIDE) as u32
}

/// The second state of the pair of this number.
pub(crate) fn second_state(pair: u64) -> u32
    ensures { result ≡ second_state pair }
{
    (pair % STRIDE) as u32
}

/// A set of pairs of states: the numbers of the pairs, ascending.
#[derive(Debug, Drop)]
pub struct PairSet {
    pairs: Vec<u64>,
}

impl Model for PairSet {
    ghost use Rattle.std.specs.Prelude.{ℕ, List};
    ghost use Rattle.kb_fsadet.specs.SubsetConstruction.{IsAscending};

    ghost Value = { List ℕ };

    ghost view = { λ set. set.pairs.items };

    ghost invariant = { λ set. IsAscending set.pairs.items };
}

impl PairSet {
    /// No pairs.
    pub(crate) fn new(alloc: Global) -> PairSet
        ensures { result ≡ [] }
    {
        PairSet {
            pairs: Vec::new(alloc),
        }
    }

    /// The set of these pairs, which may be in any order.
    pub(crate) fn of(mut pairs: Vec<u64>) -> PairSet
        ensures { result ≡ set_of pairs.items }
    {
        pairs.sort_unstable();
        pairs.dedup();
        pairs.shrink_to_fit();
        PairSet { pairs }
    }

    /// The pairs, by ascending numbers.
    pub(crate) fn as_slice(&self) -> &[u64]
        ensures pairs { result.now ≡ self.now }
        ensures ascends { IsAscending self.now }
    {
        self.pairs.as_slice()
    }

    /// Whether the pair is one of them. The search halves them at each look.
    pub(crate) fn contains(&self, pair: u64) -> bool
        ensures { result ≡ is_member self.now pair }
    {
        self.pairs.as_slice().binary_search(&pair).is_ok()
    }

    /// The same set.
    pub(crate) fn copy(&self, alloc: Global) -> Result<PairSet, Memory>
        ensures { IfOk result (λ set. set ≡ self.now) }
    {
        let pairs = Vec::from_slice(alloc, self.as_slice())?;
        Ok(PairSet { pairs })
    }
}

impl PartialEq for PairSet {
    ghost eq = { pointwise nat_eq };

    ghost laws = { partial_equiv_from_equiv nat_list_eq_equiv };

    fn eq(&self, other: &PairSet) -> bool
        ensures { result ≡ pointwise nat_eq self.now other.now }
    {
        self.as_slice() == other.as_slice()
    }
}

impl Eq for PairSet {
    ghost laws = { nat_list_eq_equiv };
}

impl Hash for PairSet {
    ghost hash_input = { fed.slice fed.u64 };

    ghost respects_eq = { Prim.search (hashing, rules) };

    fn hash<H: Hasher>(&self, state: &mut H) {
        self.as_slice().hash(state);
    }
}
