//! The field that says what a file is: `isRWS`.

ghost use Rattle.std.specs.Prelude.{◌≡◌, codes, Some, IfErr, OnOk};
ghost use Rattle.kb_fields.specs.Fields.{fields_view, value_of, bare_name};
ghost use Rattle.kb_presfile.specs.Checks.{is_there, is_of_kind};
ghost use Rattle.kb_presfile.specs.Faults.{IsFirstFrom};
ghost use Rattle.kb_presfile.specs.declared.error.Field.TheVariants as kinds;

use crate::error::{Field, PresError};
use crate::fields::needed;
use kb_record::RecordField;
use std::alloc::Global;

/// Refuses a file that doesn't say `isRWS := true`.
pub fn check_is_rws<'a>(alloc: Global, fields: &[RecordField<'a>]) -> Result<(), PresError>
    ensures ok { OnOk result
        (value_of (fields_view fields.now) (codes "isRWS") ≡ Some (bare_name (codes "true"))) }
    ensures fault { IfErr result
        (IsFirstFrom (fields_view fields.now) (is_there kinds.IsRws)) }
{
    let found = needed(alloc, fields, Field::IsRws)?;
    match kb_fields::bare_name(found.value()) {
        Some("true") => Ok(()),
        _ => Err(PresError::WrongKind {
            field: Field::IsRws,
        }),
    }
}
