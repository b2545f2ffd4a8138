//! Laws: no bytes are both read and refused, they are refused for one fault, and they say one presentation.

ghost use Rattle.std.specs.Prelude.{◌≡◌, ◌≢◌, ℕ, List};
ghost use Rattle.kb_record.specs.Tree.{Fields};
ghost use Rattle.kb_word.specs.Presentations.{PresentationParts};
ghost use Rattle.kb_presfile.specs.Holds.{HoldsPresentation, PresentationOf};
ghost use Rattle.kb_presfile.specs.Faults.{IsFirstOf, HasPresFault};
ghost use Rattle.kb_presfile.specs.declared.error.PresError.{PresError};
ghost use Rattle.kb_presfile.specs.declared.error.PresError.TheVariants as errors;

use kb_record::{a_text_has_one_fault, a_text_has_one_tree, a_text_that_is_read_has_no_fault};

/// Fields that say a presentation have no fault.
pub fn a_presentation_has_no_fault()
    ensures { (given : Fields) (parts : PresentationParts) (error : PresError)
        → HoldsPresentation given parts → ¬ IsFirstOf given error }
{}

/// Fields have one fault at most.
pub fn fields_have_one_fault()
    ensures { (given : Fields) (one other : PresError) → IsFirstOf given one
        → IsFirstOf given other → one ≡ other }
{}

/// Bytes that say a presentation have no fault; want of memory is none of theirs.
pub fn a_presentation_file_has_no_fault()
    ensures { (bytes : List ℕ) (parts : PresentationParts) (error : PresError)
        → PresentationOf bytes parts
        → HasPresFault bytes error → error ≡ errors.Memory }
{
    a_text_has_one_tree();
    a_text_that_is_read_has_no_fault();
}

/// Bytes have one fault at most; want of memory is none of theirs.
pub fn a_presentation_file_has_one_fault()
    ensures { (bytes : List ℕ) (one other : PresError) → HasPresFault bytes one
        → HasPresFault bytes other → one ≢ errors.Memory → other ≢ errors.Memory → one ≡ other }
{
    a_text_has_one_tree();
    a_text_that_is_read_has_no_fault();
    a_text_has_one_fault();
}

/// Bytes say one presentation at most.
pub fn a_text_says_one_presentation()
    ensures { (bytes : List ℕ) (one other : PresentationParts) → PresentationOf bytes one
        → PresentationOf bytes other → one ≡ other }
{
    a_text_has_one_tree();
}
