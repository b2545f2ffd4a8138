//! The field `initial`: the initial state.

ghost use Rattle.std.specs.Prelude.{◌≡◌, Some, IfOk, IfErr, length};
ghost use Rattle.kb_fields.specs.Fields.{fields_view};
ghost use Rattle.kb_fsafile.specs.Holds.{HoldsStates, HoldsInitial};
ghost use Rattle.kb_fsafile.specs.Checks.{order_of, initial_field};
ghost use Rattle.kb_fsafile.specs.Reading.{IsFirstFrom};

use crate::error::{Field, FsaError};
use crate::fields::needed_value;
use crate::values::number_within;
use kb_fields::numbers_listed;
use kb_record::RecordField;
use std::alloc::Global;

/// The initial state of so many, and 0 where there is none.
pub fn read_initial<'a>(
    alloc: Global,
    fields: &[RecordField<'a>],
    count: u64,
) -> Result<u64, FsaError>
    requires { HoldsStates (fields_view fields.now) count }
    ensures read { IfOk result (HoldsInitial (fields_view fields.now) count) }
    ensures fault { IfErr result
        (IsFirstFrom (order_of initial_field) (fields_view fields.now)) }
{
    let value = needed_value(alloc, fields, Field::Initial)?;
    let Some(numbers) = numbers_listed(alloc, value.value())? else {
        return Err(FsaError::WrongKind {
            field: Field::Initial,
        });
    };
    if numbers.len() > 1 {
        return Err(FsaError::NotDeterministic);
    }
    let Some(number) = numbers.first() else {
        return Ok(0);
    };
    match number_within(*number, count) {
        Some(state) => Ok(state),
        None => Err(FsaError::TargetOutOfRange),
    }
}
