//! Laws: no bytes are both read and refused, they are refused for one fault, and they say one automaton.

ghost use Rattle.std.specs.Prelude.{◌≡◌, ◌≢◌, ℕ, List};
ghost use Rattle.kb_record.specs.Tree.{Fields};
ghost use Rattle.kb_fsa.specs.Language.{Automaton};
ghost use Rattle.kb_fsafile.specs.Holds.{AutomatonOf};
ghost use Rattle.kb_fsafile.specs.Faults.{IsFirstOf, HasFsaFault};
ghost use Rattle.kb_fsafile.specs.declared.error.FsaError.{FsaError};
ghost use Rattle.kb_fsafile.specs.declared.error.FsaError.TheVariants as errors;

use kb_record::{a_text_has_one_fault, a_text_has_one_tree, a_text_that_is_read_has_no_fault};

/// Bytes that say an automaton have no fault; want of memory is none of theirs.
pub fn an_automaton_file_has_no_fault()
    ensures { (bytes : List ℕ) (names : List (List ℕ)) (automaton : Automaton) (error : FsaError)
        → AutomatonOf bytes names automaton
        → HasFsaFault bytes error → error ≡ errors.Memory }
{
    a_text_has_one_tree();
    a_text_that_is_read_has_no_fault();
}

/// Fields have one fault at most.
pub fn fields_of_automata_have_one_fault()
    ensures { (given : Fields) (one other : FsaError) → IsFirstOf given one
        → IsFirstOf given other → one ≡ other }
{}

/// Bytes have one fault at most; want of memory is none of theirs.
pub fn an_automaton_file_has_one_fault()
    ensures { (bytes : List ℕ) (one other : FsaError) → HasFsaFault bytes one
        → HasFsaFault bytes other → one ≢ errors.Memory → other ≢ errors.Memory → one ≡ other }
{
    a_text_has_one_tree();
    a_text_that_is_read_has_no_fault();
    a_text_has_one_fault();
}

/// Bytes say one automaton at most.
pub fn a_text_says_one_automaton()
    ensures { (bytes : List ℕ) (names others : List (List ℕ)) (one other : Automaton)
        → AutomatonOf bytes names one
        → AutomatonOf bytes others other → (names ≡ others) × (one ≡ other) }
{
    a_text_has_one_tree();
}
