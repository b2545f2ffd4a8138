//! The fields that a presentation file has, each once.

ghost use Rattle.std.specs.Prelude.{◌≡◌, ℕ, List, Some, IfOk, IfErr, OnOk};
ghost use Rattle.kb_record.specs.Tree.{record_value};
ghost use Rattle.kb_record.specs.View.{found_view};
ghost use Rattle.kb_fields.specs.Fields.{fields_view, value_of, HasFieldTwice};
ghost use Rattle.kb_presfile.specs.Checks.{is_there};
ghost use Rattle.kb_presfile.specs.Faults.{name_of, IsNeeded, IsMemoryOr, IsFirstOf, IsFirstFrom};

use crate::error::{Field, PresError};
use kb_fields::{field_named, repeated_name};
use kb_record::{FoundValue, RecordField};
use std::alloc::Global;

/// The value of a field that a presentation file has.
pub fn needed<'r, 'a>(
    alloc: Global,
    fields: &'r [RecordField<'a>],
    field: Field,
) -> Result<FoundValue<'r, 'a>, PresError>
    requires { IsNeeded (fields_view fields.now) field }
    ensures found { IfOk result
        (λ found. value_of (fields_view fields.now) (name_of field) ≡ Some (found_view found)) }
    ensures fault { IfErr result (IsFirstFrom (fields_view fields.now) (is_there field)) }
{
    match field_named(alloc, fields, field.name())? {
        Some(found) => Ok(found),
        None => Err(PresError::MissingField { field }),
    }
}

/// Refuses a record with a field name twice, nested ones too.
pub fn check_once<'a>(alloc: Global, fields: &[RecordField<'a>]) -> Result<(), PresError>
    ensures once { OnOk result
        ((name : List ℕ) → ¬ HasFieldTwice (record_value (fields_view fields.now)) name) }
    ensures fault { IfErr result (IsMemoryOr (IsFirstOf (fields_view fields.now))) }
{
    match repeated_name(alloc, fields)? {
        Some(field) => Err(PresError::FieldTwice { field }),
        None => Ok(()),
    }
}
