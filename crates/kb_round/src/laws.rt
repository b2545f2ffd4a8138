//! What a round by a reduced complete system lacks. The laws do nothing when they run.

ghost use Rattle.std.specs.Prelude.{◌≡◌, ℕ, List, ◌∷◌, [], ◌++◌};
ghost use Rattle.kb_word.specs.Words.{Pair, OneOf};
ghost use Rattle.kb_word.specs.Rewriting.{IsIrreducible, NormalForm};
ghost use Rattle.kb_word.specs.declared.presentation.Presentation.{Presentation};
ghost use Rattle.kb_diff.specs.Groups.{group_of};
ghost use Rattle.kb_diff.specs.Differences.{HaveDifferences};
ghost use Rattle.kb_structure.specs.declared.cert.Cert.{Cert};
ghost use Rattle.kb_structure.specs.declared.cert.Cert.TheVariants.{N4};
ghost use Rattle.kb_round.specs.Rounds.{IsRefuted};
ghost use Rattle.kb_round.specs.Kept.{KeepsReduced};

use kb_reduced::reduced_complete_systems_are_complete;

/// A certificate against the automata of a round by a reduced complete system, by all differences of its rules, is of
/// the kind N4.
pub fn rounds_by_reduced_systems_lack_images()
    ensures { (presentation : Presentation) (rules : List Pair) (words : List (List ℕ)) (limit : ℕ)
        (cert : Cert) → KeepsReduced presentation rules words
        → IsRefuted presentation rules words limit cert
        → (x : ℕ) × (u : List ℕ) × (cert ≡ N4 x u) }
{
    reduced_complete_systems_are_complete();
}

/// The word without image and the normal form of its image are irreducible, and have a difference that isn't kept.
pub fn rounds_by_reduced_systems_keep_more()
    ensures first { (presentation : Presentation) (rules : List Pair) (words : List (List ℕ))
        (limit x : ℕ) (u : List ℕ) → KeepsReduced presentation rules words
        → IsRefuted presentation rules words limit (N4 x u)
        → IsIrreducible (OneOf rules) u }
    ensures more { (presentation : Presentation) (rules : List Pair) (words : List (List ℕ))
        (limit x : ℕ) (u v : List ℕ) → KeepsReduced presentation rules words
        → IsRefuted presentation rules words limit (N4 x u)
        → NormalForm rules (u ++ x ∷ []) v
        → ¬ HaveDifferences (group_of presentation rules) words u v }
{
    reduced_complete_systems_are_complete();
}
