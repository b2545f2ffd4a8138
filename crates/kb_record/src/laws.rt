//! Laws of the grammar: trees are unique, faults are unique, and no text is both read and refused.

ghost use Rattle.std.specs.Prelude.{◌≡◌, ◌≢◌, ◌≤◌, ℕ, List, Option, Result, Ok};
ghost use Rattle.kb_record.specs.Tree.{Factors, TextTree};
ghost use Rattle.kb_record.specs.Grammar.{IsTextForm, IsWordForm, TextOf, WordOf};
ghost use Rattle.kb_record.specs.Nesting.{deepest, text_nesting, word_nesting, IsTooDeep};
ghost use Rattle.kb_record.specs.Meaning.{WordFault};
ghost use Rattle.kb_record.specs.Faults.{Meaning, HasTextFault, HasWordFault};
ghost use Rattle.kb_record.specs.declared.error.RecordError.{RecordError};
ghost use Rattle.kb_record.specs.declared.error.RecordError.TheVariants as record_errors;
ghost use Rattle.kb_record.specs.declared.error.WordError.{WordError};
ghost use Rattle.kb_record.specs.declared.error.WordError.TheVariants as word_errors;

/// Bytes are a text in one way at most.
pub fn a_text_has_one_tree()
    ensures { (bytes : List ℕ) (one other : TextTree) → TextOf bytes one → TextOf bytes other
        → one ≡ other }
{}

/// Bytes are a word in one way at most.
pub fn a_word_has_one_tree()
    ensures { (bytes : List ℕ) (one other : Factors) → WordOf bytes one → WordOf bytes other
        → one ≡ other }
{}

/// A text that nests as deep as it may has no front with too many brackets open.
pub fn a_shallow_text_is_not_too_deep()
    ensures { (bytes : List ℕ) (text : TextTree) → TextOf bytes text → text_nesting text ≤ deepest
        → ¬ IsTooDeep IsTextForm bytes }
{}

/// A word that nests as deep as it may has no front with too many brackets open.
pub fn a_shallow_word_is_not_too_deep()
    ensures { (bytes : List ℕ) (factors : Factors) → WordOf bytes factors
        → word_nesting factors ≤ deepest
        → ¬ IsTooDeep IsWordForm bytes }
{}

/// Bytes have one fault of a text at most, with its place; want of memory is none of theirs.
pub fn a_text_has_one_fault()
    ensures { (bytes : List ℕ) (one other : RecordError) → HasTextFault bytes one
        → HasTextFault bytes other → one ≢ record_errors.Memory → other ≢ record_errors.Memory
        → one ≡ other }
{}

/// Bytes with a tree that nests as deep as it may have no fault of a text; want of memory is none of theirs.
pub fn a_text_that_is_read_has_no_fault()
    ensures { (bytes : List ℕ) (text : TextTree) (error : RecordError) → TextOf bytes text
        → text_nesting text ≤ deepest → HasTextFault bytes error → error ≡ record_errors.Memory }
{}

/// Over names and inverses, bytes have one fault of a word at most, with its place or its name.
pub fn a_word_has_one_fault()
    ensures { (bytes : List ℕ) (names : List (List ℕ)) (inverses : List (Option ℕ))
        (one other : WordError) → HasWordFault bytes names inverses one
        → HasWordFault bytes names inverses other → one ≢ word_errors.Memory
        → other ≢ word_errors.Memory → one ≡ other }
{}

/// Over names and inverses, bytes have one meaning at most: one word, or one fault of a word.
pub fn a_word_has_one_meaning()
    ensures { (bytes : List ℕ) (names : List (List ℕ)) (inverses : List (Option ℕ))
        (one other : Result (List ℕ) WordFault) → Meaning bytes names inverses one
        → Meaning bytes names inverses other → one ≡ other }
{}

/// Bytes that mean a word have no fault; want of memory is none of theirs.
pub fn a_word_that_is_read_has_no_fault()
    ensures { (bytes : List ℕ) (names : List (List ℕ)) (inverses : List (Option ℕ))
        (w : List ℕ) (error : WordError) → Meaning bytes names inverses (Ok w)
        → HasWordFault bytes names inverses error → error ≡ word_errors.Memory }
{}

/// Bytes that mean a word aren't refused for a fault.
pub fn a_word_that_is_read_is_not_refused()
    ensures { (bytes : List ℕ) (names : List (List ℕ)) (inverses : List (Option ℕ))
        (w : List ℕ) (error : WordError) → Meaning bytes names inverses (Ok w)
        → HasWordFault bytes names inverses error → ¬ (error ≢ word_errors.Memory) }
{}
