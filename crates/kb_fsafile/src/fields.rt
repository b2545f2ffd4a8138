//! The fields that an automaton file has, each once and of its kind.

ghost use Rattle.std.specs.Prelude.{◌≡◌, ℕ, pos, List, length, Some, IfOk, IfErr, OnOk};
ghost use Rattle.std.specs.Option.{option_map};
ghost use Rattle.kb_record.specs.Tree.{number_value, string_value, record_value};
ghost use Rattle.kb_record.specs.View.{value_view, found_view};
ghost use Rattle.kb_record.specs.Listed.{listed, HasPlaces};
ghost use Rattle.kb_fields.specs.Fields.{fields_view, value_of, HasFieldTwice};
ghost use Rattle.kb_fsafile.specs.Kinds.{count_value};
ghost use Rattle.kb_fsafile.specs.Checks.{needed, optional};
ghost use Rattle.kb_fsafile.specs.Standing.{name_of};
ghost use Rattle.kb_fsafile.specs.Faults.{IsFirstOf};
ghost use Rattle.kb_fsafile.specs.Reading.{HasRecords, HasLists, HasStrings, HasNumbers, HasCounts, IsRefusalOf, IsOfOtherKind, IsMemoryOr};

use crate::error::{Field, FsaError};
use crate::values::string_of;
use kb_fields::{field_named, number_of, repeated_name};
use kb_record::{FoundValue, RecordField, Value};
use std::alloc::Global;

/// Refuses a record with a field name twice, nested ones too.
pub fn check_once<'a>(alloc: Global, fields: &[RecordField<'a>]) -> Result<(), FsaError>
    ensures once { OnOk result
        ((name : List ℕ) → ¬ HasFieldTwice (record_value (fields_view fields.now)) name) }
    ensures fault { IfErr result (IsMemoryOr (IsFirstOf (fields_view fields.now))) }
{
    match repeated_name(alloc, fields)? {
        Some(field) => Err(FsaError::FieldTwice { field }),
        None => Ok(()),
    }
}

/// The value of a field that a record of an automaton file has.
pub fn needed_value<'r, 'a>(
    alloc: Global,
    fields: &'r [RecordField<'a>],
    field: Field,
) -> Result<FoundValue<'r, 'a>, FsaError>
    ensures found { IfOk result
        (λ value. value_of (fields_view fields.now) (name_of field)
        ≡ Some (found_view value)) }
    ensures fault { IfErr result (IsMemoryOr (IsRefusalOf field needed (fields_view fields.now))) }
{
    match field_named(alloc, fields, field.name())? {
        Some(value) => Ok(value),
        None => Err(FsaError::MissingField { field }),
    }
}

/// The fields of the record that the value of a field is.
pub fn record_in<'v, 'a>(
    value: &'v Value<'a>,
    field: Field,
) -> Result<&'v Vec<RecordField<'a>>, FsaError>
    requires { HasRecords field }
    ensures found { IfOk result
        (λ inner. value_view value.now ≡ record_value (fields_view inner.now.items)) }
    ensures fault { IfErr result (IsOfOtherKind field (value_view value.now)) }
{
    match value {
        Value::Record(inner) => Ok(inner),
        _ => Err(FsaError::WrongKind { field }),
    }
}

/// The list that a field holds, and the number of its places.
pub fn needed_list<'r, 'a>(
    alloc: Global,
    fields: &'r [RecordField<'a>],
    field: Field,
) -> Result<(FoundValue<'r, 'a>, usize), FsaError>
    requires { HasLists field }
    ensures found { IfOk result
        (λ list. value_of (fields_view fields.now) (name_of field)
        ≡ Some (found_view list.0)) }
    ensures listed { IfOk result
        (λ list. HasPlaces (found_view list.0) (listed (found_view list.0))) }
    ensures counted { IfOk result (λ list. length (listed (found_view list.0)) ≡ list.1) }
    ensures fault { IfErr result (IsMemoryOr (IsRefusalOf field needed (fields_view fields.now))) }
{
    let list = needed_value(alloc, fields, field)?;
    match list.value().place_count() {
        Some(count) => Ok((list, count)),
        None => Err(FsaError::WrongKind { field }),
    }
}

/// The string that a field holds.
pub fn needed_string<'a>(
    alloc: Global,
    fields: &[RecordField<'a>],
    field: Field,
) -> Result<&'a str, FsaError>
    requires { HasStrings field }
    ensures found { IfOk result
        (λ text. value_of (fields_view fields.now) (name_of field)
        ≡ Some (string_value text.now)) }
    ensures fault { IfErr result (IsMemoryOr (IsRefusalOf field needed (fields_view fields.now))) }
{
    let value = needed_value(alloc, fields, field)?;
    match string_of(value.value()) {
        Some(text) => Ok(text),
        None => Err(FsaError::WrongKind { field }),
    }
}

/// The number that a field holds.
pub fn needed_number<'a>(
    alloc: Global,
    fields: &[RecordField<'a>],
    field: Field,
) -> Result<i64, FsaError>
    requires { HasNumbers field }
    ensures found { IfOk result
        (λ number. value_of (fields_view fields.now) (name_of field)
        ≡ Some (number_value number)) }
    ensures fault { IfErr result (IsMemoryOr (IsRefusalOf field needed (fields_view fields.now))) }
{
    let value = needed_value(alloc, fields, field)?;
    match number_of(value.value()) {
        Some(number) => Ok(number),
        None => Err(FsaError::WrongKind { field }),
    }
}

/// The number from 0 on that a field holds.
pub fn needed_count<'a>(
    alloc: Global,
    fields: &[RecordField<'a>],
    field: Field,
) -> Result<u64, FsaError>
    requires { HasCounts field }
    ensures found { IfOk result
        (λ count. value_of (fields_view fields.now) (name_of field)
        ≡ Some (count_value count)) }
    ensures fault { IfErr result (IsMemoryOr (IsRefusalOf field needed (fields_view fields.now))) }
{
    let value = needed_value(alloc, fields, field)?;
    match value.value() {
        Value::Number(number) if *number >= 0 => Ok(*number as u64),
        _ => Err(FsaError::WrongKind { field }),
    }
}

/// The string that a field holds; `None` where the field is absent.
pub fn optional_string<'a>(
    alloc: Global,
    fields: &[RecordField<'a>],
    field: Field,
) -> Result<Option<&'a str>, FsaError>
    requires { HasStrings field }
    ensures found { IfOk result
        (λ text. value_of (fields_view fields.now) (name_of field)
        ≡ option_map (λ text. string_value text.now) text) }
    ensures fault { IfErr result (IsMemoryOr (IsRefusalOf field optional (fields_view fields.now))) }
{
    let Some(value) = field_named(alloc, fields, field.name())? else {
        return Ok(None);
    };
    match string_of(value.value()) {
        Some(text) => Ok(Some(text)),
        None => Err(FsaError::WrongKind { field }),
    }
}

/// The number that a field holds; `None` where the field is absent.
pub fn optional_number<'a>(
    alloc: Global,
    fields: &[RecordField<'a>],
    field: Field,
) -> Result<Option<i64>, FsaError>
    requires { HasNumbers field }
    ensures found { IfOk result
        (λ number. value_of (fields_view fields.now) (name_of field)
        ≡ option_map number_value number) }
    ensures fault { IfErr result (IsMemoryOr (IsRefusalOf field optional (fields_view fields.now))) }
{
    let Some(value) = field_named(alloc, fields, field.name())? else {
        return Ok(None);
    };
    match number_of(value.value()) {
        Some(number) => Ok(Some(number)),
        None => Err(FsaError::WrongKind { field }),
    }
}
