//! The kinds of values that a presentation's fields hold.

ghost use Rattle.std.specs.Prelude.{◌≡◌, ◌≢◌, ◌≤◌, ◌++◌, ℕ, List, length, map, replicate, Option, Some, None, IfOk, IfSome, IfNone};
ghost use Rattle.std.specs.Option.{option_copied, option_map};
ghost use Rattle.kb_record.specs.Tree.{Factors, string_value, list_value, word_value};
ghost use Rattle.kb_record.specs.View.{value_view, word_view, written_place};
ghost use Rattle.kb_record.specs.Listed.{place_view};
ghost use Rattle.kb_fields.specs.Fields as fields;
ghost use Rattle.kb_presfile.specs.Kinds.{list_of_places, equation_value};
ghost use Rattle.kb_presfile.specs.Holds.{place_at};

use kb_fields::written_name;
use kb_record::{Expr, Place, PlaceText, Value};
use kb_word::Memory;
use std::alloc::Global;

/// The text of a value that is a string.
pub fn string_of<'r, 'a>(value: &'r Value<'a>) -> Option<&'r str>
    ensures found { IfSome result (λ text. value_view value.now ≡ string_value text.now) }
    ensures none { IfNone result ((text : List ℕ) → value_view value.now ≢ string_value text) }
{
    match value {
        Value::String(text) => Some(text),
        _ => None,
    }
}

/// The names at the first `count` places of a value that is a list of Names and empty places, empty from `count` on.
/// `None` of other values.
pub fn places_listed<'a>(
    alloc: Global,
    value: &Value<'a>,
    count: usize,
) -> Result<Option<Vec<Option<&'a str>>>, Memory>
    ensures listed { IfOk result
        (λ places. IfSome places
        (λ places. (more : ℕ) × (value_view value.now
        ≡ list_value (list_of_places (map option_copied places.items ++ replicate more None))))) }
    ensures few { IfOk result (λ places. IfSome places (λ places. length places.items ≤ count)) }
    ensures other { IfOk result
        (λ places. IfNone places
        ((places : List (Option (List ℕ)))
        → value_view value.now ≡ list_value (list_of_places places)
        → (k : ℕ) × (count ≤ k) × (place_at places k ≢ None))) }
{
    let Some(all) = value.place_count() else {
        return Ok(None);
    };
    let mut names = Vec::with_capacity(alloc, all.min(count))?;
    for place in 0..all {
        let Some(name) = name_or_empty(value.place(place)) else {
            return Ok(None);
        };
        if place < count {
            names.push(name)?;
        } else if name.is_some() {
            return Ok(None);
        }
    }
    Ok(Some(names))
}

/// The Name at a place of a list, or that it is empty. `None` where something else stands there.
fn name_or_empty<'a>(place: Place<'_, 'a>) -> Option<Option<&'a str>>
    ensures found { IfSome result
        (λ name. place_view place.entry ≡ option_map fields.bare_name (option_copied name)) }
    ensures none { IfNone result
        ((name : Option (List ℕ)) → place_view place.entry ≢ option_map fields.bare_name name) }
{
    match place {
        Place::Text(text) => written_or_empty(text),
        _ => None,
    }
}

/// The same of a place as it is written.
fn written_or_empty<'a>(text: PlaceText<'a>) -> Option<Option<&'a str>>
    ensures found { IfSome result
        (λ name. written_place text.entry ≡ option_map fields.bare_name (option_copied name)) }
    ensures none { IfNone result
        ((name : Option (List ℕ)) → written_place text.entry ≢ option_map fields.bare_name name) }
{
    if text.is_empty() {
        return Some(None);
    }
    let name = written_name(text)?;
    Some(Some(name))
}

/// The two words of a place of a list that holds a list of two words.
pub fn sides_at<'a>(
    alloc: Global,
    place: Place<'_, 'a>,
) -> Result<Option<(Expr<'a>, Expr<'a>)>, Memory>
    ensures found { IfOk result (λ sides. IfSome sides
        (λ sides. place_view place.entry
        ≡ Some (equation_value (word_view sides.0, word_view sides.1)))) }
    ensures none { IfOk result (λ sides. IfNone sides
        ((sides : Factors × Factors) → place_view place.entry ≢ Some (equation_value sides))) }
{
    match place {
        Place::Text(text) => written_sides(alloc, text),
        _ => Ok(None),
    }
}

/// The same of a place as it is written.
fn written_sides<'a>(
    alloc: Global,
    text: PlaceText<'a>,
) -> Result<Option<(Expr<'a>, Expr<'a>)>, Memory>
    ensures found { IfOk result (λ sides. IfSome sides
        (λ sides. written_place text.entry
        ≡ Some (equation_value (word_view sides.0, word_view sides.1)))) }
    ensures none { IfOk result (λ sides. IfNone sides
        ((sides : Factors × Factors) → written_place text.entry ≢ Some (equation_value sides))) }
{
    let value = text.value(alloc)?;
    match value {
        Some(value) => Ok(two_words(&value)),
        None => Ok(None),
    }
}

/// The words of a value that is a list of two words.
fn two_words<'a>(value: &Value<'a>) -> Option<(Expr<'a>, Expr<'a>)>
    ensures found { IfSome result
        (λ sides. value_view value.now
        ≡ equation_value (word_view sides.0, word_view sides.1)) }
    ensures none { IfNone result
        ((sides : Factors × Factors) → value_view value.now ≢ equation_value sides) }
{
    if value.place_count()? != 2 {
        return None;
    }
    Some((word_at(value.place(0))?, word_at(value.place(1))?))
}

/// The word at a place of a list.
fn word_at<'a>(place: Place<'_, 'a>) -> Option<Expr<'a>>
    ensures found { IfSome result
        (λ word. place_view place.entry ≡ Some (word_value (word_view word))) }
    ensures none { IfNone result
        ((word : Factors) → place_view place.entry ≢ Some (word_value word)) }
{
    match place {
        Place::Text(text) => text.word(),
        _ => None,
    }
}
