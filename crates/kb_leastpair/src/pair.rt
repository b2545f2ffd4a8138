//! The least pair.

ghost use Rattle.std.specs.Prelude.{◌≡◌, ℕ, List, IfOk, IfSome, IfNone};
ghost use Rattle.kb_fsa.specs.declared.alphabet.Alphabet.TheVariants.{Pair};
ghost use Rattle.kb_leastpair.specs.LeastPair.{IsAccepted, IsLeastPair};

use crate::first::least_first;
use crate::second::least_second;
use kb_fsa::Fsa;
use kb_word::{Memory, Word};
use std::alloc::Global;

/// The pair of the least first word, and of the least second word beside it, that an automaton of pairs accepts.
pub fn least_pair(alloc: Global, pairs: &Fsa) -> Result<Option<(Word, Word)>, Memory>
    requires { (n : ℕ) × (pairs.now.alphabet ≡ Pair n) }
    ensures found { IfOk result (λ found. IfSome found
        (λ pair. IsLeastPair (IsAccepted pairs.now) pair.0 pair.1)) }
    ensures none { IfOk result (λ found. IfNone found
        ((first second : List ℕ) → ¬ IsAccepted pairs.now first second)) }
{
    let Some(first) = least_first(alloc, pairs)? else {
        return Ok(None);
    };
    match least_second(alloc, pairs, &first)? {
        Some(second) => Ok(Some((first, second))),
        None => Ok(None),
    }
}
