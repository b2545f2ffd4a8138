//! Laws of counts, and of texts that stand for pairs.

ghost use Rattle.std.specs.Prelude.{◌≡◌, ℕ, List, length, max};
ghost use Rattle.kb_word.specs.Relations.{IsOver};
ghost use Rattle.kb_fsa.specs.Language.{Automaton, AcceptsText};
ghost use Rattle.kb_fsa.specs.Padding.{padded};
ghost use Rattle.kb_count.specs.Counts.{IsCountOf, AcceptsSoManyOfLength};
ghost use Rattle.kb_count.specs.declared.counting.Count.{Count};

/// An automaton has one count, and one number for each length.
pub fn there_is_one_count()
    ensures count { (automaton : Automaton) (count other : Count)
        → IsCountOf (AcceptsText automaton) count → IsCountOf (AcceptsText automaton) other
        → count ≡ other }
    ensures number { (automaton : Automaton) (long number other : ℕ)
        → AcceptsSoManyOfLength automaton long number
        → AcceptsSoManyOfLength automaton long other → number ≡ other }
{}

/// A text is that of one pair of words alone, and as long as the longer of them.
pub fn texts_of_pairs_stand_for_pairs()
    ensures one_pair { (n : ℕ) (u v w x : List ℕ)
        → IsOver n u → IsOver n v → IsOver n w → IsOver n x
        → padded n u v ≡ padded n w x → (u ≡ w) × (v ≡ x) }
    ensures length { (n : ℕ) (u v : List ℕ) → length (padded n u v) ≡ max (length u) (length v) }
{}
