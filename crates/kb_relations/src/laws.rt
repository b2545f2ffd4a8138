//! Laws: where words can be followed, and that they lead to least words. They do nothing when they run.

ghost use Rattle.std.specs.Prelude.{ℕ, List, []};
ghost use Rattle.kb_word.specs.WordOrders.{Below};
ghost use Rattle.kb_word.specs.Congruence.{IsLeast};
ghost use Rattle.kb_word.specs.Relations.{IsOver};
ghost use Rattle.kb_fsa.specs.Language.{Automaton, Accepts};
ghost use Rattle.kb_structure.specs.Structure.{Structure, Follows, IsAutomaticStructure};
ghost use Rattle.kb_structure.specs.StructureOf.{FitTogether, OfAutomata};
ghost use Rattle.kb_structure.specs.Certificates.{HasImages, PrefixNotAccepted, PairOutsideAcceptor, TwoImages};
ghost use Rattle.kb_relations.specs.Images.{CanBeFollowed};

/// In the group's own structure, a word's letters lead from the empty word to the least word of its class.
/// Epstein et al., Word Processing in Groups, 2.3.
pub fn own_structures_lead_to_least_words()
    ensures { (structure : Structure) → IsAutomaticStructure structure
        → (word end : List ℕ) → IsOver structure.n word → Follows structure word [] end
        → IsLeast (Below structure.order) structure.relations word end }
{}

/// Words can be followed by automata that fit together, give images and have no certificate N2 or N5; and the empty
/// word is accepted where there is no certificate N1.
pub fn automata_without_certificates_can_be_followed()
    ensures { (acceptor : Automaton) (multipliers : List Automaton)
        → FitTogether acceptor multipliers → OfAutomata acceptor multipliers HasImages
        → OfAutomata acceptor multipliers (λ structure. (u : List ℕ)
        → ¬ PrefixNotAccepted structure u)
        → OfAutomata acceptor multipliers (λ structure. (x : ℕ) (u v : List ℕ)
        → ¬ PairOutsideAcceptor structure x u v)
        → OfAutomata acceptor multipliers (λ structure. (x : ℕ) (u v other : List ℕ)
        → ¬ TwoImages structure x u v other)
        → CanBeFollowed acceptor multipliers × Accepts acceptor [] }
{}
