//! The law of the letters of reduced complete systems. It does nothing when it runs.

ghost use Rattle.std.specs.Prelude.{ℕ, List};
ghost use Rattle.kb_word.specs.Words.{Pair, OneOf};
ghost use Rattle.kb_word.specs.Relations.{IsOver};
ghost use Rattle.kb_word.specs.WordOrders.{Below};
ghost use Rattle.kb_word.specs.declared.word_order.WordOrder.{WordOrder};
ghost use Rattle.kb_reduced.specs.Reduced.{IsReducedComplete};

/// The left sides of the reduced complete system of pairs of words over n letters are words over those letters.
pub fn reduced_left_sides_keep_the_letters()
    ensures { (order : WordOrder) (n : ℕ) (pairs rules : List Pair)
        → ((pair : Pair) → OneOf pairs pair → IsOver n pair.0 × IsOver n pair.1)
        → IsReducedComplete (Below order) pairs rules
        → (rule : Pair) → OneOf rules rule → IsOver n rule.0 }
{}
