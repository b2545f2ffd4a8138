//! The intersection.

ghost use Rattle.std.specs.Prelude.{◌≡◌, ℕ, Err, IsOk, IfOk};
ghost use Rattle.kb_fsa.specs.Counted.{CountedAnd};
ghost use Rattle.kb_explore.specs.declared.det.Det.TheVariants.{TooManyStates};
ghost use Rattle.kb_fsabool.specs.Answers.{IsIntersection};

use crate::connective::Connective;
use crate::product::combine;
use kb_explore::Det;
use kb_fsa::Fsa;
use std::alloc::Global;

/// An automaton of the texts that both accept.
pub fn and(alloc: Global, one: &Fsa, two: &Fsa, limit: u32) -> Result<Fsa, Det>
    requires { one.now.alphabet ≡ two.now.alphabet }
    ensures language { IfOk result (IsIntersection one.now two.now) }
    ensures alphabet { IfOk result (λ both. both.alphabet ≡ one.now.alphabet) }
    ensures few { IsOk result → ¬ CountedAnd one.now.table two.now.table limit }
    ensures many { (most : ℕ) → result ≡ Err (TooManyStates most)
        → (most ≡ limit) × CountedAnd one.now.table two.now.table limit }
{
    combine(alloc, Connective::And, one, two, limit)
}
