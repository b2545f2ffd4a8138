//! The places of lists, in whichever form a list is kept.

ghost use Rattle.std.specs.Prelude.{◌≡◌, ◌≢◌, ◌<◌, length, slice_get, Some, IfSome, IfNone};
ghost use Rattle.kb_record.specs.Tree.{Places, list_value};
ghost use Rattle.kb_record.specs.View.{value_view};
ghost use Rattle.kb_record.specs.Listed.{listed, HasPlaces, place_view};

use crate::tree::{PlaceText, Value};

/// What stands at a place of a list.
#[derive(Debug, Drop)]
pub enum Place<'r, 'a> {
    /// Whatever it is, as it is written.
    Text(PlaceText<'a>),
    /// A number.
    Number(i64),
    /// A list of numbers.
    Numbers(&'r [i64]),
    /// A list of lists of two numbers each.
    Entries(&'r [(i64, i64)]),
}

impl<'a> Value<'a> {
    /// The number of places of a list, and `None` for a value that is none.
    pub fn place_count(&self) -> Option<usize>
        ensures list { IfSome result
            (λ count. HasPlaces (value_view self.now) (listed (value_view self.now))
            × (length (listed (value_view self.now)) ≡ count)) }
        ensures other { IfNone result
            ((places : Places) → value_view self.now ≢ list_value places) }
    {
        match self {
            Value::List(places) => Some(places.len()),
            Value::Numbers(numbers) => Some(numbers.len()),
            Value::Rows(rows) => Some(rows.len()),
            Value::Entries(rows) => Some(rows.len()),
            _ => None,
        }
    }

    /// What stands at a place of a list.
    pub fn place<'r>(&'r self, place: usize) -> Place<'r, 'a>
        requires { place < length (listed (value_view self.now)) }
        ensures { slice_get (listed (value_view self.now)) place ≡ Some (place_view result) }
    {
        match self {
            Value::List(places) => Place::Text(places.get(place)),
            Value::Numbers(numbers) => Place::Number(numbers[place]),
            Value::Rows(rows) => Place::Numbers(rows.get(place).unwrap()),
            Value::Entries(rows) => Place::Entries(rows.get(place).unwrap()),
            _ => unreachable!(),
        }
    }
}
