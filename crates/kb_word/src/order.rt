//! The shortlex order of words, their equality, and how they are hashed.

ghost use Rattle.std.specs.Prelude.{◌≡◌, refl, ◌↔◌, ℕ, ◌<◌, ◌^◌, List, nat_eq, IsTrue, All};
ghost use Rattle.std.specs.Cmp.{partial_equiv_from_equiv};
ghost use Rattle.std.specs.Cmp.Lexicographic.{pointwise, nat_list_eq_equiv};
ghost use Rattle.std.specs.Cmp.Rules.{hashing};
ghost use Rattle.std.specs.Hash as fed;
ghost use Rattle.std.specs.Ordering.{as_partial_cmp};
ghost use Rattle.std.proofs.Common.{rules};
ghost use Rattle.kb_word.specs.Words.{Less};
ghost use Rattle.kb_word.specs.Order.{IsReductionOrder, rank};
ghost use Rattle.kb_word.specs.Comparison.{shortlex_cmp, shortlex_cmp_total, shortlex_ties, shortlex_partial_order};

use crate::word::Word;
use std::cmp::Ordering;
use std::hash::{Hash, Hasher};

impl PartialEq for Word {
    ghost eq = { pointwise nat_eq };

    ghost laws = { partial_equiv_from_equiv nat_list_eq_equiv };

    fn eq(&self, other: &Word) -> bool
        ensures answer { result ≡ pointwise nat_eq self.now other.now }
        ensures same { IsTrue result ↔ (self.now ≡ other.now) }
    {
        self.letters() == other.letters()
    }
}

impl Eq for Word {
    ghost laws = { nat_list_eq_equiv };
}

impl Hash for Word {
    ghost hash_input = { fed.slice fed.u16 };

    ghost respects_eq = { Prim.search (hashing, rules) };

    fn hash<H: Hasher>(&self, state: &mut H) {
        self.letters().hash(state);
    }
}

impl Ord for Word {
    ghost cmp = { shortlex_cmp };

    ghost total = { shortlex_cmp_total };

    ghost matches_partial_cmp = { λ _ _. refl };

    ghost matches_eq = { shortlex_ties };

    fn cmp(&self, other: &Word) -> Ordering
        ensures answer { result ≡ shortlex_cmp self.now other.now }
        ensures less { (result ≡ Ordering.Less) ↔ Less self.now other.now }
    {
        let lengths = self.len().cmp(&other.len());
        lengths.then(self.letters().cmp(other.letters()))
    }
}

impl PartialOrd for Word {
    ghost partial_cmp = { as_partial_cmp shortlex_cmp };

    ghost laws = { shortlex_partial_order };

    fn partial_cmp(&self, other: &Word) -> Option<Ordering> {
        Some(self.cmp(other))
    }
}

/// Whether u comes before v in the shortlex order: u is shorter, or as long as v with the earlier letter
/// at the first difference. Epstein et al., Word Processing in Groups, 2.5.
pub fn less(u: &Word, v: &Word) -> bool
    ensures { IsTrue result ↔ Less u.now v.now }
{
    u.cmp(v) == Ordering::Less
}

/// Shortlex is a reduction order, on the words over all numbers.
pub fn shortlex_is_a_reduction_order()
    ensures { IsReductionOrder Less }
{}

/// The rank of words over letters below 2^16 falls along the shortlex order, so it can measure descents.
pub fn rank_falls_along_shortlex()
    ensures { (u v : List ℕ) → All (λ x. x < 2 ^ 16) u → All (λ x. x < 2 ^ 16) v → Less u v
        → rank u < rank v }
{}
