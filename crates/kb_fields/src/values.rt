//! Values that are Names, and lists of Names.

ghost use Rattle.std.specs.Prelude.{◌≡◌, ◌≢◌, ℕ, List, map, length, Some, IfOk, IfSome, IfNone};
ghost use Rattle.std.specs.Bool.{MatchBool};
ghost use Rattle.kb_record.specs.View.{value_view, written_place};
ghost use Rattle.kb_record.specs.Listed.{listed, HasPlaces, place_view};
ghost use Rattle.kb_fields.specs.Fields.{IsListOf};
ghost use Rattle.kb_fields.specs.Fields as kinds;

use kb_record::{Place, PlaceText, Value};
use kb_word::Memory;
use std::alloc::Global;

/// The text of a value that is a Name: a word of one factor that is a bare name.
pub fn bare_name<'a>(value: &Value<'a>) -> Option<&'a str>
    ensures found { IfSome result (λ name. value_view value.now ≡ kinds.bare_name name.now) }
    ensures none { IfNone result ((name : List ℕ) → value_view value.now ≢ kinds.bare_name name) }
{
    match value {
        Value::Word(word) => word.bare_name(),
        _ => None,
    }
}

/// Whether a list of so many places is a list of Names.
pub(crate) fn lists_names<'a>(value: &Value<'a>, count: usize) -> bool
    requires listed { HasPlaces (value_view value.now) (listed (value_view value.now)) }
    requires counted { length (listed (value_view value.now)) ≡ count }
    ensures { MatchBool result
        ((names : List (List ℕ)) × IsListOf names (value_view value.now) × (length names ≡ count))
        ((names : List (List ℕ)) → ¬ IsListOf names (value_view value.now)) }
{
    for place in 0..count {
        let Some(_name) = name_at(value.place(place)) else {
            return false;
        };
    }
    true
}

/// The names of a value that is a list of Names.
pub(crate) fn names_listed<'a>(
    alloc: Global,
    value: &Value<'a>,
) -> Result<Option<Vec<&'a str>>, Memory>
    ensures listed { IfOk result
        (λ names. IfSome names
        (λ names. IsListOf (map (λ name. name.now) names.items) (value_view value.now))) }
    ensures other { IfOk result
        (λ names. IfNone names
        ((names : List (List ℕ)) → ¬ IsListOf names (value_view value.now))) }
{
    let Some(count) = value.place_count() else {
        return Ok(None);
    };
    let mut names = Vec::with_capacity(alloc, count)?;
    for place in 0..count {
        let Some(name) = name_at(value.place(place)) else {
            return Ok(None);
        };
        names.push(name)?;
    }
    Ok(Some(names))
}

/// The Name at a place of a list.
fn name_at<'a>(place: Place<'_, 'a>) -> Option<&'a str>
    ensures found { IfSome result
        (λ name. place_view place.entry ≡ Some (kinds.bare_name name.now)) }
    ensures none { IfNone result
        ((name : List ℕ) → place_view place.entry ≢ Some (kinds.bare_name name)) }
{
    match place {
        Place::Text(text) => written_name(text),
        _ => None,
    }
}

/// The Name at a place of a list, as it is written.
pub fn written_name<'a>(text: PlaceText<'a>) -> Option<&'a str>
    ensures found { IfSome result
        (λ name. written_place text.entry ≡ Some (kinds.bare_name name.now)) }
    ensures none { IfNone result
        ((name : List ℕ) → written_place text.entry ≢ Some (kinds.bare_name name)) }
{
    let word = text.word()?;
    word.bare_name()
}
