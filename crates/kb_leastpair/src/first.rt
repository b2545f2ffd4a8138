//! The least first word.

ghost use Rattle.std.specs.Prelude.{◌≡◌, ℕ, List, IfOk, IfSome, IfNone};
ghost use Rattle.kb_fsa.specs.declared.alphabet.Alphabet.TheVariants.{Pair};
ghost use Rattle.kb_fsadet.specs.Projection.{HasSecond};
ghost use Rattle.kb_leastpair.specs.LeastPair.{IsLeastWord};

use kb_fsa::{Fsa, word_of};
use kb_fsadet::automaton_of_first_words;
use kb_fsaleast::least_text;
use kb_word::{Memory, Word};
use std::alloc::Global;

/// The least word beside which an automaton of pairs accepts some second word.
pub fn least_first(alloc: Global, pairs: &Fsa) -> Result<Option<Word>, Memory>
    requires { (n : ℕ) × (pairs.now.alphabet ≡ Pair n) }
    ensures found { IfOk result (λ found. IfSome found (IsLeastWord (HasSecond pairs.now))) }
    ensures none { IfOk result (λ found. IfNone found
        ((word : List ℕ) → ¬ HasSecond pairs.now word)) }
{
    let words = automaton_of_first_words(alloc, pairs)?;
    match least_text(alloc, &words)? {
        Some(text) => Ok(Some(word_of(alloc, text.as_slice())?)),
        None => Ok(None),
    }
}
