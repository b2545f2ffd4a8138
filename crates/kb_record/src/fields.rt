//! The fields of records: their names, and their values, read again where they are kept as they are written.
//!
//! A text that begins with no field stands for one with an empty name and an empty string: so each of these calls has
//! an answer. Such a text is in no tree that was read.

ghost use Rattle.std.specs.Prelude.{◌≡◌, [], IfOk, MatchOption};
ghost use Rattle.kb_record.specs.Tree.{string_value};
ghost use Rattle.kb_record.specs.Reading.{remaining};
ghost use Rattle.kb_record.specs.View.{value_view, field_view, found_view, written_field, first_field_in, first_place_in, value_of_place, written_place};

use crate::cursor::{Cursor, Mark};
use crate::tree::{Field, FieldText, PlaceText, RecordField, Value};
use kb_word::Memory;
use std::alloc::Global;

/// The value of a field: the one that was kept, or one that was read again.
#[derive(Debug, Drop)]
pub enum FoundValue<'r, 'a> {
    /// It was kept.
    Kept(&'r Value<'a>),
    /// It was read again.
    Read(Value<'a>),
}

impl<'r, 'a> FoundValue<'r, 'a> {
    /// The value.
    pub fn value(&self) -> &Value<'a>
        ensures { value_view result.now ≡ found_view self.now }
    {
        match self {
            FoundValue::Kept(value) => *value,
            FoundValue::Read(value) => value,
        }
    }
}

/// Passes the name of the field that comes next and the `:=` behind it, and answers the name; `None` where no field
/// comes.
fn begin_of_field<'a>(tokens: &mut Cursor<'a>) -> Option<&'a str>
    ensures { MatchOption result
        (first_field_in (remaining tokens.old) ≡ ([], string_value []))
        (λ name. first_field_in (remaining tokens.old)
        ≡ (name.now, value_of_place (first_place_in (remaining tokens.new)))) }
{
    let name = tokens.take_name()?;
    if tokens.take(Mark::Assign) {
        Some(name)
    } else {
        None
    }
}

impl<'a> FieldText<'a> {
    /// The field's name.
    pub fn name(&self) -> &'a str
        ensures { result.now ≡ (written_field self.now).0 }
    {
        let mut tokens = Cursor::new(self.text);
        begin_of_field(&mut tokens).unwrap_or("")
    }

    /// The text of the field's value, as that of a place of a list; `None` where the text begins with no field.
    pub fn value_text(&self) -> Option<PlaceText<'a>>
        ensures { MatchOption result ((written_field self.now).1 ≡ string_value [])
            (λ place. (written_field self.now).1 ≡ value_of_place (written_place place)) }
    {
        let mut tokens = Cursor::new(self.text);
        begin_of_field(&mut tokens)?;
        Some(tokens.place_text())
    }

    /// The field's value.
    pub fn value(&self, alloc: Global) -> Result<Value<'a>, Memory>
        ensures { IfOk result (λ value. value_view value ≡ (written_field self.now).1) }
    {
        let Some(place) = self.value_text() else {
            return Ok(Value::String(""));
        };
        let value = place.value(alloc)?;
        Ok(value.unwrap_or(Value::String("")))
    }
}

impl<'a> RecordField<'a> {
    /// The field's name.
    pub fn name(&self) -> &'a str
        ensures { result.now ≡ (field_view self.now).0 }
    {
        match self {
            Field::Written(text) => text.name(),
            Field::Read(name, _) => *name,
        }
    }

    /// The field's value.
    pub fn value<'r>(&'r self, alloc: Global) -> Result<FoundValue<'r, 'a>, Memory>
        ensures { IfOk result (λ found. found_view found ≡ (field_view self.now).1) }
    {
        match self {
            Field::Written(text) => Ok(FoundValue::Read(text.value(alloc)?)),
            Field::Read(_, value) => Ok(FoundValue::Kept(value)),
        }
    }
}
