//! Laws of printed texts: they are read again, and what is read can be printed.

ghost use Rattle.std.specs.Prelude.{ℕ, List};
ghost use Rattle.kb_lexing.specs.Spelling.{IsName};
ghost use Rattle.kb_record.specs.Tree.{TextTree};
ghost use Rattle.kb_record.specs.Grammar.{AreFields, TextOf};
ghost use Rattle.kb_layout.specs.Layout.{AreSpelledFields, printed};

/// The printed text of a tree whose names, numbers and strings can be spelled is a text of that tree.
pub fn a_printed_text_is_read_again()
    ensures { (text : TextTree) → IsName text.title → AreFields text.fields
        → AreSpelledFields text.fields
        → TextOf (printed text) text }
{}

/// The tree of a text can be printed: its names, numbers and strings can be spelled.
pub fn what_is_read_can_be_printed()
    ensures { (bytes : List ℕ) (text : TextTree) → TextOf bytes text
        → IsName text.title × AreFields text.fields × AreSpelledFields text.fields }
{}
