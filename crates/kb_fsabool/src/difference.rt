//! The symmetric difference.

ghost use Rattle.std.specs.Prelude.{◌≡◌, ℕ, Err, IsOk, IfOk};
ghost use Rattle.kb_fsa.specs.Counted.{CountedOr};
ghost use Rattle.kb_explore.specs.declared.det.Det.TheVariants.{TooManyStates};
ghost use Rattle.kb_fsabool.specs.Answers.{IsSymmetricDifference};

use crate::connective::Connective;
use crate::product::combine;
use kb_explore::Det;
use kb_fsa::Fsa;
use std::alloc::Global;

/// An automaton of the texts that exactly one accepts.
pub fn symmetric_difference(alloc: Global, one: &Fsa, two: &Fsa, limit: u32) -> Result<Fsa, Det>
    requires { one.now.alphabet ≡ two.now.alphabet }
    ensures language { IfOk result (IsSymmetricDifference one.now two.now) }
    ensures alphabet { IfOk result (λ difference. difference.alphabet ≡ one.now.alphabet) }
    ensures few { IsOk result → ¬ CountedOr one.now.table two.now.table limit }
    ensures many { (most : ℕ) → result ≡ Err (TooManyStates most)
        → (most ≡ limit) × CountedOr one.now.table two.now.table limit }
{
    combine(alloc, Connective::Xor, one, two, limit)
}
