//! Laws of what is written: it is a text of its tree, and is read again.

ghost use Rattle.std.specs.Prelude.{◌≤◌, ℕ, List, Bool, length};
ghost use Rattle.kb_word.specs.Words.{Pair};
ghost use Rattle.kb_word.specs.Presentations.{PresentationParts};
ghost use Rattle.kb_word.specs.Relations.{IsPresentation};
ghost use Rattle.kb_record.specs.Tree.{record_value};
ghost use Rattle.kb_record.specs.Grammar.{TextOf};
ghost use Rattle.kb_record.specs.Nesting.{deepest, text_nesting};
ghost use Rattle.kb_fields.specs.Fields.{HasFieldTwice};
ghost use Rattle.kb_fields.specs.Generators.{AreGeneratorNames};
ghost use Rattle.kb_presfile.specs.Holds.{PresentationOf};
ghost use Rattle.kb_presprint.specs.Printed.{tree_of, text_of_presentation};
ghost use Rattle.kb_presprint.specs.Printable.{IsPrintable};
ghost use Rattle.kb_presprint.specs.Written.{with_equations, HaveRoom};

use kb_layout::{a_printed_text_is_read_again, what_is_read_can_be_printed};

/// What is written of a presentation with rules over its generators is a text of its tree, which is shallow and has no
/// field twice.
pub fn a_written_presentation_is_a_text_of_its_tree()
    ensures formed { (parts : PresentationParts) (rules : List Pair) (confluent : Bool)
        → IsPrintable parts rules
        → TextOf (text_of_presentation parts rules confluent) (tree_of parts rules confluent) }
    ensures shallow { (parts : PresentationParts) (rules : List Pair) (confluent : Bool)
        → text_nesting (tree_of parts rules confluent) ≤ deepest }
    ensures once { (parts : PresentationParts) (rules : List Pair) (confluent : Bool)
        (name : List ℕ)
        → ¬ HasFieldTwice (record_value (tree_of parts rules confluent).fields) name }
{
    a_printed_text_is_read_again();
}

/// The text that is written of a presentation with rules over its generators says the presentation that has the rules
/// as its equations.
pub fn a_written_presentation_is_read_again()
    ensures { (parts : PresentationParts) (rules : List Pair) (confluent : Bool)
        → AreGeneratorNames parts.names → IsPrintable parts rules → HaveRoom rules
        → PresentationOf (text_of_presentation parts rules confluent) (with_equations parts rules) }
{
    a_written_presentation_is_a_text_of_its_tree();
}

/// A presentation that bytes say can be written with any rules over its generators: its names and weights are such that
/// the text is read again.
pub fn a_presentation_that_is_read_can_be_written()
    ensures printable { (bytes : List ℕ) (parts : PresentationParts) (rules : List Pair)
        → PresentationOf bytes parts
        → IsPresentation (length parts.names) parts.order parts.names parts.inverses rules
        → IsPrintable parts rules }
    ensures names { (bytes : List ℕ) (parts : PresentationParts)
        → PresentationOf bytes parts → AreGeneratorNames parts.names }
{
    what_is_read_can_be_printed();
}
