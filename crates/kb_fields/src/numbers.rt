//! Values that are numbers, and lists of numbers.

ghost use Rattle.std.specs.Prelude.{◌≡◌, ◌≢◌, ℤ, List, Some, IfOk, IfSome, IfNone};
ghost use Rattle.kb_record.specs.Tree.{number_value, list_value};
ghost use Rattle.kb_record.specs.View.{value_view};
ghost use Rattle.kb_record.specs.Listed.{place_view};
ghost use Rattle.kb_fields.specs.Fields.{list_of_numbers};

use kb_record::{Place, Value};
use kb_word::Memory;
use std::alloc::Global;

/// The number that the value is.
pub fn number_of<'a>(value: &Value<'a>) -> Option<i64>
    ensures found { IfSome result (λ number. value_view value.now ≡ number_value number) }
    ensures none { IfNone result ((number : ℤ) → value_view value.now ≢ number_value number) }
{
    match value {
        Value::Number(number) => Some(*number),
        _ => None,
    }
}

/// The number at a place of a list.
pub fn number_at(place: Place<'_, '_>) -> Option<i64>
    ensures found { IfSome result (λ number. place_view place.entry ≡ Some (number_value number)) }
    ensures none { IfNone result
        ((number : ℤ) → place_view place.entry ≢ Some (number_value number)) }
{
    match place {
        Place::Number(number) => Some(number),
        Place::Text(text) => text.number(),
        _ => None,
    }
}

/// The numbers of a value that is a list of numbers.
pub fn numbers_listed<'a>(alloc: Global, value: &Value<'a>) -> Result<Option<Vec<i64>>, Memory>
    ensures listed { IfOk result
        (λ numbers. IfSome numbers
        (λ numbers. value_view value.now ≡ list_value (list_of_numbers numbers.items))) }
    ensures other { IfOk result
        (λ numbers. IfNone numbers
        ((numbers : List ℤ) → value_view value.now ≢ list_value (list_of_numbers numbers))) }
{
    match value {
        Value::Numbers(numbers) => Ok(Some(Vec::from_slice(alloc, numbers.as_slice())?)),
        _ => numbers_in_places(alloc, value),
    }
}

/// The numbers of a value that is a list of numbers, place by place.
fn numbers_in_places<'a>(alloc: Global, value: &Value<'a>) -> Result<Option<Vec<i64>>, Memory>
    ensures listed { IfOk result
        (λ numbers. IfSome numbers
        (λ numbers. value_view value.now ≡ list_value (list_of_numbers numbers.items))) }
    ensures other { IfOk result
        (λ numbers. IfNone numbers
        ((numbers : List ℤ) → value_view value.now ≢ list_value (list_of_numbers numbers))) }
{
    let Some(count) = value.place_count() else {
        return Ok(None);
    };
    let mut numbers = Vec::with_capacity(alloc, count)?;
    for place in 0..count {
        let Some(number) = number_at(value.place(place)) else {
            return Ok(None);
        };
        numbers.push(number)?;
    }
    Ok(Some(numbers))
}
