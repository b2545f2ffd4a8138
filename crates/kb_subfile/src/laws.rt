//! Laws: no bytes are both read and refused, they are refused for one fault, and they say one list of generators.

ghost use Rattle.std.specs.Prelude.{◌≡◌, ◌≢◌, ℕ, List};
ghost use Rattle.kb_record.specs.Tree.{Fields};
ghost use Rattle.kb_word.specs.Presentations.{PresentationParts};
ghost use Rattle.kb_subfile.specs.Holds.{GeneratorsOf};
ghost use Rattle.kb_subfile.specs.Faults.{HasSubFault};
ghost use Rattle.kb_subfile.specs.declared.error.SubError.{SubError};
ghost use Rattle.kb_subfile.specs.declared.error.SubError.TheVariants as errors;

use kb_record::{a_text_has_one_fault, a_text_has_one_tree, a_text_that_is_read_has_no_fault};

/// Bytes that say generators have no fault; want of memory is none of theirs.
pub fn a_subgroup_file_has_no_fault()
    ensures { (bytes : List ℕ) (parts : PresentationParts) (generators : List (List ℕ))
        (error : SubError) → GeneratorsOf bytes parts generators
        → HasSubFault parts bytes error → error ≡ errors.Memory }
{
    a_text_has_one_tree();
    a_text_that_is_read_has_no_fault();
}

/// Bytes have one fault at most; want of memory is none of theirs.
pub fn a_subgroup_file_has_one_fault()
    ensures { (bytes : List ℕ) (parts : PresentationParts) (one other : SubError)
        → HasSubFault parts bytes one → HasSubFault parts bytes other
        → one ≢ errors.Memory → other ≢ errors.Memory → one ≡ other }
{
    a_text_has_one_tree();
    a_text_that_is_read_has_no_fault();
    a_text_has_one_fault();
}

/// Over one presentation bytes say one list of generators at most.
pub fn a_text_says_one_list_of_generators()
    ensures { (bytes : List ℕ) (parts : PresentationParts) (one other : List (List ℕ))
        → GeneratorsOf bytes parts one → GeneratorsOf bytes parts other → one ≡ other }
{
    a_text_has_one_tree();
}
