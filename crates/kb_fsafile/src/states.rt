//! The field `states`: how many states there are.

ghost use Rattle.std.specs.Prelude.{IfOk, IfErr};
ghost use Rattle.kb_fields.specs.Fields.{fields_view};
ghost use Rattle.kb_fsafile.specs.Holds.{HoldsStates};
ghost use Rattle.kb_fsafile.specs.Checks.{order_of, states_field};
ghost use Rattle.kb_fsafile.specs.Reading.{IsFirstFrom};

use crate::error::{Field, FsaError};
use crate::fields::{needed_count, needed_string, needed_value, record_in};
use kb_record::RecordField;
use std::alloc::Global;

/// How many states the file says that there are, which may be more than it has rows.
pub fn count_states<'a>(alloc: Global, fields: &[RecordField<'a>]) -> Result<u64, FsaError>
    ensures read { IfOk result (HoldsStates (fields_view fields.now)) }
    ensures fault { IfErr result
        (IsFirstFrom (order_of states_field) (fields_view fields.now)) }
{
    let value = needed_value(alloc, fields, Field::States)?;
    let states = record_in(value.value(), Field::States)?.as_slice();
    match needed_string(alloc, states, Field::Type)? {
        "simple" => needed_count(alloc, states, Field::Size),
        _ => Err(FsaError::StatesWrong),
    }
}
