//! The law of canonical automata. It does nothing when it runs.

ghost use Rattle.std.specs.Prelude.{◌≡◌};
ghost use Rattle.kb_fsa.specs.Language.{Automaton, IsAutomaton, SameLanguage};
ghost use Rattle.kb_fsa.specs.Canonical.{IsCanonical};

/// Over one alphabet, one language has one canonical automaton.
pub fn one_language_has_one_canonical_automaton()
    ensures { (one other : Automaton) → IsAutomaton one → IsAutomaton other
        → one.alphabet ≡ other.alphabet
        → IsCanonical one.table → IsCanonical other.table → SameLanguage one other → one ≡ other }
{}
