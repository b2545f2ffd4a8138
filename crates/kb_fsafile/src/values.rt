//! The kinds of values that an automaton's fields hold.

ghost use Rattle.std.specs.Prelude.{◌≡◌, ◌≢◌, ◌<◌, ◌≤◌, ◌∷◌, [], ℕ, ℤ, pos, List, Some, IfOk, IfSome, IfNone};
ghost use Rattle.kb_record.specs.Tree.{string_value, list_value, range_value};
ghost use Rattle.kb_record.specs.View.{value_view, written_place};
ghost use Rattle.kb_record.specs.Listed.{place_view};
ghost use Rattle.kb_fsafile.specs.Kinds.{entry_value, list_of_entries, IsNumberOf, IsTargetOf};

use kb_fields::number_at;
use kb_record::{Place, PlaceText, Value};
use kb_word::Memory;
use std::alloc::Global;

/// The text of the string that the value is.
pub fn string_of<'a>(value: &Value<'a>) -> Option<&'a str>
    ensures found { IfSome result (λ text. value_view value.now ≡ string_value text.now) }
    ensures none { IfNone result ((text : List ℕ) → value_view value.now ≢ string_value text) }
{
    match value {
        Value::String(text) => Some(text),
        _ => None,
    }
}

/// The first and the last number of the range that the value is.
pub fn range_of<'a>(value: &Value<'a>) -> Option<(i64, i64)>
    ensures found { IfSome result (λ ends. value_view value.now ≡ range_value ends.0 ends.1) }
    ensures none { IfNone result ((from to : ℤ) → value_view value.now ≢ range_value from to) }
{
    match value {
        Value::Range(from, to) => Some((*from, *to)),
        _ => None,
    }
}

/// The pairs of numbers of a value that is a list of lists of two numbers.
pub fn entries_listed<'a>(
    alloc: Global,
    value: &Value<'a>,
) -> Result<Option<Vec<(i64, i64)>>, Memory>
    ensures listed { IfOk result
        (λ entries. IfSome entries
        (λ entries. value_view value.now ≡ list_value (list_of_entries entries.items))) }
    ensures other { IfOk result
        (λ entries. IfNone entries
        ((entries : List (ℤ × ℤ)) → value_view value.now ≢ list_value (list_of_entries entries))) }
{
    let Some(count) = value.place_count() else {
        return Ok(None);
    };
    let mut entries = Vec::with_capacity(alloc, count)?;
    for place in 0..count {
        let found = entry_at(alloc, value.place(place))?;
        let Some(entry) = found else {
            return Ok(None);
        };
        entries.push(entry)?;
    }
    Ok(Some(entries))
}

/// The two numbers at a place that holds a list of two numbers.
fn entry_at(alloc: Global, place: Place<'_, '_>) -> Result<Option<(i64, i64)>, Memory>
    ensures found { IfOk result (λ entry. IfSome entry
        (λ entry. place_view place.entry ≡ Some (entry_value entry))) }
    ensures none { IfOk result (λ entry. IfNone entry
        ((entry : ℤ × ℤ) → place_view place.entry ≢ Some (entry_value entry))) }
{
    match place {
        Place::Numbers(numbers) => Ok(pair_of(numbers)),
        Place::Text(text) => written_entry(alloc, text),
        _ => Ok(None),
    }
}

/// The same of a place as it is written.
fn written_entry(alloc: Global, text: PlaceText<'_>) -> Result<Option<(i64, i64)>, Memory>
    ensures found { IfOk result (λ entry. IfSome entry
        (λ entry. written_place text.entry ≡ Some (entry_value entry))) }
    ensures none { IfOk result (λ entry. IfNone entry
        ((entry : ℤ × ℤ) → written_place text.entry ≢ Some (entry_value entry))) }
{
    let value = text.value(alloc)?;
    match value {
        Some(value) => Ok(two_numbers(&value)),
        None => Ok(None),
    }
}

/// The two numbers, where there are two.
fn pair_of(numbers: &[i64]) -> Option<(i64, i64)>
    ensures found { IfSome result (λ pair. numbers.now ≡ pair.0 ∷ pair.1 ∷ []) }
    ensures none { IfNone result
        ((pair : ℤ × ℤ) → numbers.now ≢ pair.0 ∷ pair.1 ∷ []) }
{
    match numbers {
        [first, second] => Some((*first, *second)),
        _ => None,
    }
}

/// The two numbers that a value lists.
fn two_numbers<'a>(value: &Value<'a>) -> Option<(i64, i64)>
    ensures found { IfSome result (λ entry. value_view value.now ≡ entry_value entry) }
    ensures none { IfNone result
        ((entry : ℤ × ℤ) → value_view value.now ≢ entry_value entry) }
{
    let count = value.place_count()?;
    if count != 2 {
        return None;
    }
    Some((number_at(value.place(0))?, number_at(value.place(1))?))
}

/// The number, where it is one of 1 to `count`.
pub fn number_within(number: i64, count: u64) -> Option<u64>
    ensures is { IfSome result (λ state. number ≡ pos state) }
    ensures positive { IfSome result (λ state. 0 < state) }
    ensures within { IfSome result (λ state. state ≤ count) }
    ensures none { IfNone result (¬ IsNumberOf count number) }
{
    if number < 1 || number as u64 > count {
        return None;
    }
    Some(number as u64)
}

/// The number, where it is one of 0 to `count`.
pub fn target_within(number: i64, count: u64) -> Option<u64>
    ensures is { IfSome result (λ target. number ≡ pos target) }
    ensures within { IfSome result (λ target. target ≤ count) }
    ensures none { IfNone result (¬ IsTargetOf count number) }
{
    if number < 0 || number as u64 > count {
        return None;
    }
    Some(number as u64)
}
