//! The laws of logs. They do nothing when they run.

ghost use Rattle.std.specs.Prelude.{◌≡◌, ℕ, List, Option, Some, slice_get};
ghost use Rattle.kb_word.specs.Words.{Pair, OneOf};
ghost use Rattle.kb_word.specs.WordOrders.{Below};
ghost use Rattle.kb_word.specs.declared.word_order.WordOrder.{WordOrder};
ghost use Rattle.kb_word.specs.Congruence.{Congruent};
ghost use Rattle.kb_word.specs.Relations.{IsPresentation, relations_of};
ghost use Rattle.kb_machine.specs.Justified.{IsJustified};
ghost use Rattle.kb_machine.specs.Letters.{AreOver};
ghost use Rattle.kb_machine.specs.Lines.{rules_of};
ghost use Rattle.kb_machine.specs.declared.line.Line.{Line};

/// The sides of each line of a justified log are congruent by the relations.
pub fn justified_lines_are_congruent()
    ensures { (order : WordOrder) (relations : List Pair) (lines : List Line)
        (index : ℕ) (line : Line)
        → IsJustified (Below order) relations lines → slice_get lines index ≡ Some line
        → Congruent (OneOf relations) line.left line.right }
{}

/// The relations of a presentation with n generators are over n letters.
pub fn relations_are_over_the_generators()
    ensures { (n : ℕ) (order : WordOrder) (names : List (List ℕ)) (inverses : List (Option ℕ))
        (equations : List Pair)
        → IsPresentation n order names inverses equations
        → AreOver n (relations_of inverses equations) }
{}

/// The lines of a justified log are over the letters of the relations. So is a pair that waits, whose line would be
/// the last of a justified log.
pub fn justified_lines_bring_no_letters()
    ensures { (n : ℕ) (order : WordOrder) (relations : List Pair) (lines : List Line)
        → AreOver n relations → IsJustified (Below order) relations lines
        → AreOver n (rules_of lines) }
{}
