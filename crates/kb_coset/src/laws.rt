//! The laws of marked words and cosets. None of them does anything when it runs.

ghost use Rattle.std.specs.Prelude.{◌≡◌, ◌↔◌, ◌++◌, ℕ, List, Some, All};
ghost use Rattle.kb_word.specs.Words.{Letters, Pair};
ghost use Rattle.kb_word.specs.Congruence.{IsLeast};
ghost use Rattle.kb_word.specs.Relations.{IsOver, inverse_word};
ghost use Rattle.kb_word.specs.WordOrders.{Below};
ghost use Rattle.kb_word.specs.Presentations.{PresentationParts};
ghost use Rattle.kb_word.specs.declared.word_order.WordOrder.{WordOrder};
ghost use Rattle.kb_coset.specs.Subgroups.{EachInverts, IsInSubgroup};
ghost use Rattle.kb_coset.specs.Cosets.{IsLeastInCoset, SameCoset};
ghost use Rattle.kb_coset.specs.Marked.{AreCongruent, ArePresentation, marked_order, marked_parts, marked_word, relations};

/// Marked words are congruent by the marked presentation exactly where the words are in one right coset.
pub fn marked_words_are_congruent_within_cosets()
    ensures { (n : ℕ) (generators : List Letters) (parts : PresentationParts) (u v : Letters)
        → ArePresentation n parts → All (IsOver n) generators → IsOver n u
        → AreCongruent (marked_parts n generators parts) (marked_word n u) (marked_word n v)
        ↔ SameCoset (relations parts) generators u v }
{}

/// In a group two words are in one right coset exactly where the first followed by the inverse of the second is equal
/// to a product of the subgroup's generators and their inverses.
pub fn cosets_are_those_of_the_subgroup()
    ensures { (n : ℕ) (generators : List Letters) (parts : PresentationParts)
        (u v inverse : Letters)
        → ArePresentation n parts → EachInverts n parts.inverses → All (IsOver n) generators
        → inverse_word parts.inverses v ≡ Some inverse
        → SameCoset (relations parts) generators u v
        ↔ IsInSubgroup parts.inverses (relations parts) generators (u ++ inverse) }
{}

/// In a group marked words are congruent by the marked presentation exactly where the first word followed by the
/// inverse of the second is equal to a product of the subgroup's generators and their inverses.
pub fn marked_words_are_congruent_by_the_subgroup()
    ensures { (n : ℕ) (generators : List Letters) (parts : PresentationParts)
        (u v inverse : Letters)
        → ArePresentation n parts → EachInverts n parts.inverses → All (IsOver n) generators
        → IsOver n u → inverse_word parts.inverses v ≡ Some inverse
        → AreCongruent (marked_parts n generators parts) (marked_word n u) (marked_word n v)
        ↔ IsInSubgroup parts.inverses (relations parts) generators (u ++ inverse) }
{}

/// The least word that is congruent to a marked word is marked, and what stands behind its marker is the least word of
/// the right coset.
pub fn least_marked_words_are_least_in_cosets()
    ensures { (n : ℕ) (generators : List Letters) (parts : PresentationParts) (u least : Letters)
        → ArePresentation n parts → All (IsOver n) generators → IsOver n u
        → IsLeast (Below (marked_order parts.order)) (relations (marked_parts n generators parts))
        (marked_word n u) least
        → (m : Letters) × (least ≡ marked_word n m)
        × IsLeastInCoset (Below parts.order) (relations parts) generators u m }
{}

/// Two words are in one right coset exactly where the least words of their cosets are equal. So a coset has one least
/// word.
pub fn cosets_are_told_by_their_least_words()
    ensures { (order : WordOrder) (given : List Pair) (generators : List Letters)
        (u v m k : Letters)
        → IsLeastInCoset (Below order) given generators u m
        → IsLeastInCoset (Below order) given generators v k
        → SameCoset given generators u v ↔ (m ≡ k) }
{}
