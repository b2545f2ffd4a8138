//! Values that are lists of words, and the words that those mean.

ghost use Rattle.std.specs.Prelude.{◌≡◌, ◌≢◌, ◌<◌, List, length, Some, Ok, IfOk, IfErr, IfSome, IfNone};
ghost use Rattle.kb_word.specs.Presentations.{parts_of};
ghost use Rattle.kb_record.specs.Tree.{Factors, list_value, word_value};
ghost use Rattle.kb_record.specs.View.{value_view, word_view};
ghost use Rattle.kb_record.specs.Listed.{place_view};
ghost use Rattle.kb_record.specs.Meaning.{word_meaning};
ghost use Rattle.kb_fields.specs.FirstFaults.{IsFirstFault};
ghost use Rattle.kb_subfile.specs.Holds.{list_of_words, Mean};
ghost use Rattle.kb_subfile.specs.Faults.{IsFaultOf, HasFaultAt, IsMemoryOr};

use crate::error::SubError;
use kb_record::{Expr, Place, Value, word_of};
use kb_word::{Presentation, Word};
use std::alloc::Global;

/// How many words a value lists that is a list of words.
pub fn word_count<'a>(value: &Value<'a>) -> Option<usize>
    ensures listed { IfSome result (λ count. (words : List Factors) × (length words ≡ count)
        × (value_view value.now ≡ list_value (list_of_words words))) }
    ensures other { IfNone result
        ((words : List Factors) → value_view value.now ≢ list_value (list_of_words words)) }
{
    let count = value.place_count()?;
    for place in 0..count {
        word_at(value.place(place))?;
    }
    Some(count)
}

/// The word at a place of a list.
fn word_at<'a>(place: Place<'_, 'a>) -> Option<Expr<'a>>
    ensures found { IfSome result
        (λ word. place_view place.entry ≡ Some (word_value (word_view word))) }
    ensures none { IfNone result
        ((word : Factors) → place_view place.entry ≢ Some (word_value word)) }
{
    match place {
        Place::Text(text) => text.word(),
        _ => None,
    }
}

/// The words that a list of so many words means, each before the next.
pub fn meanings<'a>(
    alloc: Global,
    value: &Value<'a>,
    count: usize,
    presentation: &Presentation,
) -> Result<Vec<Word>, SubError>
    requires { (words : List Factors) × (length words ≡ count)
        × (value_view value.now ≡ list_value (list_of_words words)) }
    ensures read { (words : List Factors) → value_view value.now ≡ list_value (list_of_words words)
        → IfOk result (λ generators. Mean (parts_of presentation.now) words generators.items) }
    ensures fault { (words : List Factors) → value_view value.now ≡ list_value (list_of_words words)
        → IfErr result
        (IsMemoryOr (IsFirstFault ◌<◌ (HasFaultAt (parts_of presentation.now) words))) }
{
    let mut generators = Vec::with_capacity(alloc, count)?;
    for place in 0..count {
        generators.push(meaning_at(alloc, value.place(place), presentation)?)?;
    }
    Ok(generators)
}

/// The word that the word at a place of a list means.
fn meaning_at(
    alloc: Global,
    place: Place<'_, '_>,
    presentation: &Presentation,
) -> Result<Word, SubError>
    requires { (word : Factors) × (place_view place ≡ Some (word_value word)) }
    ensures read { (word : Factors) → place_view place.entry ≡ Some (word_value word)
        → IfOk result (λ generator.
        word_meaning presentation.now.names presentation.now.inv word ≡ Ok generator) }
    ensures fault { (word : Factors) → place_view place.entry ≡ Some (word_value word)
        → IfErr result (IsMemoryOr
        (IsFaultOf (word_meaning presentation.now.names presentation.now.inv word))) }
{
    let Some(word) = word_at(place) else {
        unreachable!();
    };
    Ok(word_of(alloc, &word, presentation)?)
}
