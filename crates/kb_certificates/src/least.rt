//! The least words and pairs of words that an automaton and its follower accept.

ghost use Rattle.std.specs.Prelude.{◌≡◌, ℕ, List, IfOk, IfSome, IfNone};
ghost use Rattle.kb_fsa.specs.Language.{IsAutomaton, generators};
ghost use Rattle.kb_fsa.specs.declared.alphabet.Alphabet.TheVariants.{Plain, Pair};
ghost use Rattle.kb_leastpair.specs.LeastPair.{IsLeastPair};
ghost use Rattle.kb_certificates.specs.Cascade.{AcceptsLed, IsLeastLed};
ghost use Rattle.kb_certificates.specs.LedPairs.{IsLedPair};

use crate::cascade::{Follower, cascade_product, least_led};
use kb_fsa::{Alphabet, Fsa, word_of};
use kb_leastpair::least_pair;
use kb_word::{Memory, Word};
use std::alloc::Global;

/// The least word that leads an automaton of words and its follower to acceptance.
pub(crate) fn least_word<F: Follower>(
    alloc: Global,
    words: &Fsa,
    follower: &F,
) -> Result<Option<Word>, Memory>
    requires { words.now.alphabet ≡ Plain (generators words.now.alphabet) }
    ensures found { IfOk result (λ found. IfSome found (λ word.
        IsLeastLed words.now.table (F.follower follower.now) word)) }
    ensures none { IfOk result (λ found. IfNone found ((word : List ℕ)
        → ¬ AcceptsLed words.now.table (F.follower follower.now) word)) }
    ensures automaton { IsAutomaton words.now }
{
    let alphabet = words.alphabet();
    prove!(alphabet == Alphabet::Plain(alphabet.generators()));
    match least_led(alloc, words, follower)? {
        Some(text) => Ok(Some(word_of(alloc, text.as_slice())?)),
        None => Ok(None),
    }
}

/// The least pair of words that leads an automaton of pairs and its follower to acceptance.
pub(crate) fn least_led_pair<F: Follower>(
    alloc: Global,
    pairs: &Fsa,
    follower: &F,
) -> Result<Option<(Word, Word)>, Memory>
    requires { pairs.now.alphabet ≡ Pair (generators pairs.now.alphabet) }
    ensures found { IfOk result (λ found. IfSome found (λ pair.
        IsLeastPair (IsLedPair pairs.now (F.follower follower.now)) pair.0 pair.1)) }
    ensures none { IfOk result (λ found. IfNone found ((first second : List ℕ)
        → ¬ IsLedPair pairs.now (F.follower follower.now) first second)) }
{
    let product = cascade_product(alloc, pairs, follower)?;
    least_pair(alloc, &product)
}
