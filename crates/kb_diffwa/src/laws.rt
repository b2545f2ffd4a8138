//! What the multipliers are over the acceptor of the same differences. The law does nothing when it runs.

ghost use Rattle.std.specs.Prelude.{◌↔◌, ℕ, List};
ghost use Rattle.kb_fsa.specs.Language.{Automaton};
ghost use Rattle.kb_diff.specs.Groups.{Group};
ghost use Rattle.kb_diff.specs.Languages.{DifferenceMultiplier, IsDifferenceAcceptor};
ghost use Rattle.kb_diffwa.specs.Multipliers.{IsMultiplied};

/// Over the acceptor of the differences, the pairs of a multiplier are those of the multiplier of the differences.
pub fn pairs_over_the_difference_acceptor()
    ensures { (group : Group) (words : List (List ℕ)) (acceptor : Automaton) (x : ℕ) (u v : List ℕ)
        → IsDifferenceAcceptor group words acceptor
        → IsMultiplied group words acceptor x u v ↔ DifferenceMultiplier group words x u v }
{}
