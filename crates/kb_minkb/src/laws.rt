//! Laws: what the automata are in the group's own structure. They do nothing when they run.

ghost use Rattle.std.specs.Prelude.{◌↔◌, ℕ, List};
ghost use Rattle.kb_word.specs.Words.{Pair};
ghost use Rattle.kb_word.specs.WordOrders.{Below};
ghost use Rattle.kb_word.specs.declared.word_order.WordOrder.{WordOrder};
ghost use Rattle.kb_word.specs.declared.word_order.WordOrder.TheVariants.{ShortLex};
ghost use Rattle.kb_fsa.specs.Canonical.{IsCanonical};
ghost use Rattle.kb_fsa.specs.Language.{Automaton};
ghost use Rattle.kb_reduced.specs.Reduced.{IsReducedRule};
ghost use Rattle.kb_structure.specs.Certificates.{HasImages};
ghost use Rattle.kb_structure.specs.StructureOf.{structure_of};
ghost use Rattle.kb_minkb.specs.LeftSides.{AcceptsEachState, IsLeftSide};
ghost use Rattle.kb_minkb.specs.Rules.{IsRule};
ghost use Rattle.kb_minkb.specs.OwnSystem.{IsOwn};

/// In the group's own structure, the left sides are exactly those of the rules of the reduced complete system, also
/// where there are infinitely many. Holt, Eick, O'Brien, Handbook of Computational Group Theory, 12.2 and 13.1.
pub fn own_left_sides_are_reduced()
    ensures { (order : WordOrder) (relations : List Pair) (acceptor : Automaton)
        (multipliers : List Automaton) → IsOwn order relations acceptor multipliers
        → HasImages (structure_of order relations acceptor multipliers) → (w : List ℕ)
        → IsLeftSide acceptor w
        ↔ ((right : List ℕ) × IsReducedRule (Below order) relations (w, right)) }
{}

/// In the group's own structure by the shortlex order, the rules are exactly those of the reduced complete system, also
/// where there are infinitely many.
pub fn own_rules_are_reduced()
    ensures { (relations : List Pair) (acceptor : Automaton) (multipliers : List Automaton)
        → IsOwn ShortLex relations acceptor multipliers → (left right : List ℕ)
        → IsRule acceptor multipliers left right
        ↔ IsReducedRule (Below ShortLex) relations (left, right) }
{}

/// The canonical acceptor of the group's own structure accepts each word that leads to a state.
pub fn own_acceptors_accept_each_state()
    ensures { (order : WordOrder) (relations : List Pair) (acceptor : Automaton)
        (multipliers : List Automaton) → IsOwn order relations acceptor multipliers
        → IsCanonical acceptor.table → AcceptsEachState acceptor }
{}
