//! The field `table`: its rows, one for each state.

ghost use Rattle.std.specs.Prelude.{◌≡◌, length, codes, IfOk, IfErr, OnOk};
ghost use Rattle.kb_record.specs.View.{value_view, places_of};
ghost use Rattle.kb_record.specs.Listed.{listed};
ghost use Rattle.kb_fields.specs.Fields.{fields_view, value_of};
ghost use Rattle.kb_fsafile.specs.Holds.{HoldsString, HasNoDefault, HoldsStates, format_name};
ghost use Rattle.kb_fsafile.specs.Checks.{order_of, table_field, default_field, table_format_field};
ghost use Rattle.kb_fsafile.specs.Standing.{HasSize};
ghost use Rattle.kb_fsafile.specs.Reading.{IsFirstFrom, IsFirstOfTable};
ghost use Rattle.kb_fsafile.specs.RowsRead.{HasRows, AreRowsAt, IsFirstOfRows};

use crate::error::{Field, FsaError};
use crate::fields::{needed_list, needed_string, needed_value, optional_number, record_in};
use crate::format::Format;
use crate::rows::read_row;
use kb_fsa::Rows;
use kb_record::{RecordField, Value};
use std::alloc::Global;

/// The rows of so many states over so many symbols. More than a `u32` can number take more memory than there is.
pub fn read_rows<'a>(
    alloc: Global,
    fields: &[RecordField<'a>],
    size: u32,
    count: u64,
) -> Result<Rows, FsaError>
    requires sized { HasSize (fields_view fields.now) size }
    requires counted { HoldsStates (fields_view fields.now) count }
    ensures read { IfOk result (HasRows (fields_view fields.now) size count) }
    ensures fault { IfErr result
        (IsFirstFrom (order_of table_field) (fields_view fields.now)) }
{
    let value = needed_value(alloc, fields, Field::Table)?;
    let table = record_in(value.value(), Field::Table)?.as_slice();
    check_default(alloc, table)?;
    let format = read_format(alloc, table)?;
    let (list, length) = needed_list(alloc, table, Field::Transitions)?;
    if length as u64 != count {
        return Err(FsaError::StatesWrong);
    }
    match u32::try_from(count) {
        Ok(count) => rows_listed(alloc, list.value(), format, size, count),
        Err(_) => Err(FsaError::Memory),
    }
}

/// Refuses another default target than 0, which stands where none is given.
fn check_default<'a>(alloc: Global, table: &[RecordField<'a>]) -> Result<(), FsaError>
    ensures ok { OnOk result
        (HasNoDefault (value_of (fields_view table.now) (codes "defaultTarget"))) }
    ensures fault { IfErr result
        (IsFirstOfTable (order_of default_field) (fields_view table.now)) }
{
    let Some(target) = optional_number(alloc, table, Field::DefaultTarget)? else {
        return Ok(());
    };
    if target != 0 {
        return Err(FsaError::NotDeterministic);
    }
    Ok(())
}

/// The format of the table.
fn read_format<'a>(alloc: Global, table: &[RecordField<'a>]) -> Result<Format, FsaError>
    ensures named { IfOk result
        (λ format. HoldsString (fields_view table.now) (codes "format") (format_name format)) }
    ensures fault { IfErr result
        (IsFirstOfTable (order_of table_format_field) (fields_view table.now)) }
{
    match Format::named(needed_string(alloc, table, Field::Format)?) {
        Some(format) => Ok(format),
        None => Err(FsaError::NotDeterministic),
    }
}

/// The rows that a list has at its places, one for each of so many states.
fn rows_listed<'a>(
    alloc: Global,
    list: &Value<'a>,
    format: Format,
    size: u32,
    count: u32,
) -> Result<Rows, FsaError>
    requires { length (listed (value_view list.now)) ≡ count }
    ensures read { IfOk result
        (AreRowsAt size count format (places_of (listed (value_view list.now)))) }
    ensures fault { IfErr result
        (IsFirstOfRows format size count (places_of (listed (value_view list.now)))) }
{
    let mut rows = Rows::new(alloc)?;
    for place in 0..count as usize {
        let row = read_row(alloc, list.place(place), format, size, count)?;
        rows.push(row.as_slice())?;
    }
    Ok(rows)
}
