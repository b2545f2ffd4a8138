//! The word acceptor of a list of rules.

ghost use Rattle.std.specs.Prelude.{◌≡◌, ◌↔◌, ◌≤◌, ℕ, List, Err, IsOk, IfOk};
ghost use Rattle.kb_word.specs.Words.{OneOf};
ghost use Rattle.kb_word.specs.Relations.{IsOver};
ghost use Rattle.kb_word.specs.Rewriting.{IsIrreducible};
ghost use Rattle.kb_fsa.specs.Language.{Accepts};
ghost use Rattle.kb_fsa.specs.Canonical.{AreReached};
ghost use Rattle.kb_fsa.specs.declared.alphabet.Alphabet.TheVariants.{Plain};
ghost use Rattle.kb_explore.specs.declared.det.Det.TheVariants.{TooManyStates};
ghost use Rattle.kb_wa.specs.Prefixes.{AreLeftSidesApart, AreLeftSidesOver, CountedPrefixes};

use crate::dictionary::Dictionary;
use crate::trie::trie_of;
use kb_explore::{Det, explore};
use kb_fsa::{Alphabet, Fsa};
use kb_rules::Rules;
use std::alloc::Global;

/// The automaton that accepts exactly the words over n letters that are irreducible by the rules.
pub fn acceptor_of_rules(alloc: Global, n: u16, rules: &Rules, limit: u32) -> Result<Fsa, Det>
    requires generators { n ≤ 65534 }
    requires letters { AreLeftSidesOver n rules.now.rules }
    requires apart { AreLeftSidesApart rules.now.rules }
    ensures alphabet { IfOk result (λ fsa. fsa.alphabet ≡ Plain n) }
    ensures language { IfOk result (λ fsa. (w : List ℕ)
        → Accepts fsa w ↔ (IsOver n w × IsIrreducible (OneOf rules.now.rules) w)) }
    ensures reached { IfOk result (λ fsa. AreReached fsa.table) }
    ensures few { IsOk result → ¬ CountedPrefixes rules.now.rules limit }
    ensures many { (most : ℕ) → result ≡ Err (TooManyStates most)
        → (most ≡ limit) × CountedPrefixes rules.now.rules limit }
{
    let trie = trie_of(alloc, n, rules.as_slice())?;
    let dictionary = Dictionary::new(n, trie);
    let exploration = explore(alloc, &dictionary, limit)?;
    Ok(Fsa::new(Alphabet::Plain(n), exploration.table))
}
