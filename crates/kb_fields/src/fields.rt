//! Look-up of fields, and names that stand twice in a record.

ghost use Rattle.std.specs.Prelude.{◌≡◌, ℕ, List, IfOk, IfSome, IfNone};
ghost use Rattle.std.specs.Option.{option_map};
ghost use Rattle.kb_record.specs.Tree.{list_value, record_value};
ghost use Rattle.kb_record.specs.View.{field_view, found_view, value_view, written_field, written_place};
ghost use Rattle.kb_fields.specs.Fields.{fields_view, places_view, value_of, HasFieldTwice, HasFieldTwiceAt, IsFirstRepeated, IsFirstRepeatedAt};

use kb_record::{Field, FieldText, FoundValue, PlaceText, RecordField, Value, WrittenPlaces};
use kb_word::{Memory, OwnedText};
use std::alloc::Global;
use std::collections::BTreeSet;

/// The value of the first field with this name, read again where the field is kept as it is written.
pub fn field_named<'r, 'a>(
    alloc: Global,
    fields: &'r [RecordField<'a>],
    name: &str,
) -> Result<Option<FoundValue<'r, 'a>>, Memory>
    ensures { IfOk result
        (λ found. value_of (fields_view fields.now) name.now ≡ option_map found_view found) }
{
    for field in fields {
        if field.name() == name {
            return Ok(Some(field.value(alloc)?));
        }
    }
    Ok(None)
}

/// The name of a field that stands twice in a record, nested ones too: of several, the one whose second place
/// comes first in the text.
#[cycle(repeats)]
pub fn repeated_name(alloc: Global, fields: &[RecordField<'_>]) -> Result<Option<OwnedText>, Memory>
    ensures some { IfOk result
        (λ found. IfSome found (IsFirstRepeated (record_value (fields_view fields.now)))) }
    ensures none { IfOk result
        (λ found. IfNone found
        ((name : List ℕ) → ¬ HasFieldTwice (record_value (fields_view fields.now)) name)) }
{
    let mut seen = BTreeSet::new(alloc);
    for field in fields {
        let name = field.name();
        if !seen.insert(name)? {
            return Ok(Some(OwnedText::from_str(alloc, name)?));
        }
        if let Some(name) = repeated_in_field(alloc, field)? {
            return Ok(Some(name));
        }
    }
    Ok(None)
}

/// The same of the records in a field's value.
#[cycle(repeats)]
fn repeated_in_field(alloc: Global, field: &RecordField<'_>) -> Result<Option<OwnedText>, Memory>
    ensures some { IfOk result
        (λ found. IfSome found (IsFirstRepeated (field_view field.now).1)) }
    ensures none { IfOk result
        (λ found. IfNone found
        ((name : List ℕ) → ¬ HasFieldTwice (field_view field.now).1 name)) }
{
    match field {
        Field::Written(text) => repeated_in_text(alloc, *text),
        Field::Read(_, value) => repeated_within(alloc, value),
    }
}

/// The same of the records in a value. Lists of numbers hold none.
#[cycle(repeats)]
fn repeated_within(alloc: Global, value: &Value<'_>) -> Result<Option<OwnedText>, Memory>
    ensures some { IfOk result (λ found. IfSome found (IsFirstRepeated (value_view value.now))) }
    ensures none { IfOk result
        (λ found. IfNone found ((name : List ℕ) → ¬ HasFieldTwice (value_view value.now) name)) }
{
    match value {
        Value::Record(fields) => repeated_name(alloc, fields.as_slice()),
        Value::List(places) => repeated_in_list(alloc, places),
        _ => Ok(None),
    }
}

/// The same of the records in the value of a field that is kept as it is written.
fn repeated_in_text(alloc: Global, field: FieldText<'_>) -> Result<Option<OwnedText>, Memory>
    ensures some { IfOk result
        (λ found. IfSome found (IsFirstRepeated (written_field field.entry).1)) }
    ensures none { IfOk result
        (λ found. IfNone found
        ((name : List ℕ) → ¬ HasFieldTwice (written_field field.entry).1 name)) }
{
    match field.value_text() {
        Some(place) => repeated_at(alloc, place),
        None => Ok(None),
    }
}

/// The same of the records at the places of a list.
fn repeated_in_list(alloc: Global, places: &WrittenPlaces<'_>) -> Result<Option<OwnedText>, Memory>
    ensures some { IfOk result
        (λ found. IfSome found (IsFirstRepeated (list_value (places_view places.now)))) }
    ensures none { IfOk result
        (λ found. IfNone found
        ((name : List ℕ) → ¬ HasFieldTwice (list_value (places_view places.now)) name)) }
{
    for place in 0..places.len() {
        if let Some(name) = repeated_at(alloc, places.get(place))? {
            return Ok(Some(name));
        }
    }
    Ok(None)
}

/// The same of the records at one place.
fn repeated_at(alloc: Global, place: PlaceText<'_>) -> Result<Option<OwnedText>, Memory>
    ensures some { IfOk result
        (λ found. IfSome found (IsFirstRepeatedAt (written_place place.entry))) }
    ensures none { IfOk result
        (λ found. IfNone found
        ((name : List ℕ) → ¬ HasFieldTwiceAt (written_place place.entry) name)) }
{
    match place.repeated_name(alloc)? {
        Some(name) => Ok(Some(OwnedText::from_str(alloc, name)?)),
        None => Ok(None),
    }
}
