//! The prefixes of left sides, as the states of their automaton.

ghost use Rattle.std.specs.Prelude.{◌≡◌, ◌<◌, IfSome, IfNone, IsTrue, false, length};
ghost use Rattle.kb_word.specs.Words.{OneOf};
ghost use Rattle.kb_word.specs.Rewriting.{IsIrreducible};
ghost use Rattle.kb_rules.specs.Ending.{NoneEnds};
ghost use Rattle.kb_trie.specs.States.{word};
ghost use Rattle.kb_index.specs.Automata.{StandsFor};
ghost use Rattle.kb_overlap.specs.Prefixes.{ArePrefixes};

use kb_index::Automaton;
use kb_rules::Rule;
use kb_word::Letter;

/// The prefixes of the left sides of rules: each is the word of a state of the automaton.
#[derive(Clone, Copy)]
pub(crate) struct Prefixes<'a> {
    pub(crate) rules: &'a [Rule],
    pub(crate) automaton: &'a Automaton,
}

impl<'a> Prefixes<'a> {
    /// Whether a left side ends the word of a state.
    pub(crate) fn is_ended(&self, state: u32) -> bool
        requires prefixes { ArePrefixes self.now }
        requires state { state < length self.now.automaton.now.words }
        ensures yes { IsTrue result
            → ¬ NoneEnds self.now.rules.now (word self.now.automaton.now.words state) }
        ensures no { result ≡ false
            → NoneEnds self.now.rules.now (word self.now.automaton.now.words state) }
    {
        self.automaton.end_at(state) > 0
    }

    /// The state after a word, or none where a left side stands in the word.
    pub(crate) fn state_after(&self, letters: &[Letter]) -> Option<u32>
        requires { ArePrefixes self.now }
        ensures stands { IfSome result (StandsFor self.now.automaton.now.words letters.now) }
        ensures irreducible { IfSome result
            (λ _. IsIrreducible (OneOf self.now.rules.now) letters.now) }
        ensures none { IfNone result (¬ IsIrreducible (OneOf self.now.rules.now) letters.now) }
    {
        let mut state = 0;
        for letter in letters {
            state = self.automaton.step(state, letter.number());
            if self.is_ended(state) {
                return None;
            }
        }
        Some(state)
    }
}
