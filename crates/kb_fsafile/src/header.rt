//! The field that says what a file is: `isFSA`.

ghost use Rattle.std.specs.Prelude.{◌≡◌, ◌↔◌, codes, Some, IsTrue, IfErr, OnOk};
ghost use Rattle.kb_record.specs.View.{value_view};
ghost use Rattle.kb_fields.specs.Fields.{fields_view, value_of, bare_name};
ghost use Rattle.kb_fsafile.specs.Checks.{order_of, is_fsa_field};
ghost use Rattle.kb_fsafile.specs.Reading.{IsFirstFrom};

use crate::error::{Field, FsaError};
use crate::fields::needed_value;
use kb_record::{RecordField, Value};
use std::alloc::Global;

/// Refuses a file that doesn't say `isFSA := true`.
pub fn check_is_fsa<'a>(alloc: Global, fields: &[RecordField<'a>]) -> Result<(), FsaError>
    ensures ok { OnOk result
        (value_of (fields_view fields.now) (codes "isFSA") ≡ Some (bare_name (codes "true"))) }
    ensures fault { IfErr result
        (IsFirstFrom (order_of is_fsa_field) (fields_view fields.now)) }
{
    let value = needed_value(alloc, fields, Field::IsFsa)?;
    if !is_true(value.value()) {
        return Err(FsaError::WrongKind {
            field: Field::IsFsa,
        });
    }
    Ok(())
}

/// Whether the value is the Name `true`.
fn is_true<'a>(value: &Value<'a>) -> bool
    ensures { IsTrue result ↔ (value_view value.now ≡ bare_name (codes "true")) }
{
    kb_fields::bare_name(value) == Some("true")
}
