//! Laws of what is written: it is a text of its tree, and is read again.

ghost use Rattle.std.specs.Prelude.{◌≡◌, ◌≤◌, ℕ, List, All, length};
ghost use Rattle.kb_record.specs.Tree.{record_value};
ghost use Rattle.kb_record.specs.Spelling.{IsName};
ghost use Rattle.kb_record.specs.Grammar.{TextOf};
ghost use Rattle.kb_record.specs.Nesting.{deepest, text_nesting};
ghost use Rattle.kb_fields.specs.Fields.{HasFieldTwice};
ghost use Rattle.kb_fields.specs.Generators.{most_generators, AreGeneratorNames};
ghost use Rattle.kb_fsa.specs.Canonical.{IsCanonical};
ghost use Rattle.kb_fsa.specs.Language.{Automaton, IsAutomaton, generators};
ghost use Rattle.kb_fsafile.specs.Holds.{AutomatonOf};
ghost use Rattle.kb_fsaprint.specs.Printed.{tree_of, text_of_automaton};

use kb_layout::a_printed_text_is_read_again;

/// What is written of an automaton over as many names as generators may have is a text of its tree, which is shallow
/// and has no field twice.
pub fn a_written_automaton_is_a_text_of_its_tree()
    ensures formed { (names : List (List ℕ)) (automaton : Automaton) → IsAutomaton automaton → All IsName names
        → length names ≤ most_generators → length names ≡ generators automaton.alphabet
        → TextOf (text_of_automaton names automaton) (tree_of names automaton) }
    ensures shallow { (names : List (List ℕ)) (automaton : Automaton)
        → text_nesting (tree_of names automaton) ≤ deepest }
    ensures once { (names : List (List ℕ)) (automaton : Automaton) (name : List ℕ)
        → ¬ HasFieldTwice (record_value (tree_of names automaton).fields) name }
{
    a_printed_text_is_read_again();
}

/// The text that is written of a canonical automaton says it.
pub fn a_written_automaton_is_read_again()
    ensures { (names : List (List ℕ)) (automaton : Automaton) → IsAutomaton automaton
        → IsCanonical automaton.table
        → AreGeneratorNames names → All IsName names → length names ≡ generators automaton.alphabet
        → AutomatonOf (text_of_automaton names automaton) names automaton }
{
    a_written_automaton_is_a_text_of_its_tree();
}
