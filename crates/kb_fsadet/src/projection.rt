//! The projection of pairs to their first words.

ghost use Rattle.std.specs.Prelude.{◌≡◌, ℕ, Err, IsOk, IfOk};
ghost use Rattle.kb_fsa.specs.Counted.{CountedExists};
ghost use Rattle.kb_fsa.specs.Language.{generators};
ghost use Rattle.kb_fsa.specs.declared.alphabet.Alphabet.TheVariants.{Plain, Pair};
ghost use Rattle.kb_explore.specs.declared.det.Det.TheVariants.{TooManyStates};
ghost use Rattle.kb_fsadet.specs.Projection.{IsProjection};

use crate::determined::determinise;
use crate::first_words::automaton_of_first_words;
use kb_explore::Det;
use kb_fsa::Fsa;
use std::alloc::Global;

/// An automaton of the words beside which an automaton of pairs accepts some word, which may be longer.
pub fn exists(alloc: Global, pairs: &Fsa, limit: u32) -> Result<Fsa, Det>
    requires { (n : ℕ) × (pairs.now.alphabet ≡ Pair n) }
    ensures language { IfOk result (IsProjection pairs.now) }
    ensures alphabet { IfOk result (λ words. words.alphabet
        ≡ Plain (generators pairs.now.alphabet)) }
    ensures few { IsOk result → ¬ CountedExists pairs.now limit }
    ensures many { (most : ℕ) → result ≡ Err (TooManyStates most)
        → (most ≡ limit) × CountedExists pairs.now limit }
{
    let words = automaton_of_first_words(alloc, pairs)?;
    determinise(alloc, &words, limit)
}
