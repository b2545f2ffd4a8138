//! The field `equations`: pairs of words that are equal.

ghost use Rattle.std.specs.Prelude.{◌≡◌, ◌<◌, length, IfOk, IfErr};
ghost use Rattle.kb_record.specs.View.{value_view, places_of};
ghost use Rattle.kb_record.specs.Listed.{listed, place_view};
ghost use Rattle.kb_fields.specs.Fields.{fields_view};
ghost use Rattle.kb_fields.specs.FirstFaults.{IsFirstFault};
ghost use Rattle.kb_presfile.specs.Holds.{HasNames, HasInverses, HasEquations, AreEquations, IsEquation};
ghost use Rattle.kb_presfile.specs.Checks.{is_there};
ghost use Rattle.kb_presfile.specs.Faults.{IsMemoryOr, PlaceHasFault, HasFaultAt, IsFirstFrom};
ghost use Rattle.kb_presfile.specs.declared.error.Field.TheVariants as kinds;

use crate::error::{Field, PresError};
use crate::fields::needed;
use crate::values::sides_at;
use kb_record::{Place, RecordField, Value, word_of};
use kb_word::{Equations, Presentation, Word};
use std::alloc::Global;

/// A presentation has at most so many equations.
pub const MOST_EQUATIONS: usize = 65535;

/// The equations, over a presentation that has the text's names and inverses.
pub fn read_equations<'a>(
    alloc: Global,
    fields: &[RecordField<'a>],
    presentation: &Presentation,
) -> Result<Equations, PresError>
    requires named { HasNames (fields_view fields.now) presentation.now.names }
    requires inverted { HasInverses (fields_view fields.now) presentation.now.names
        presentation.now.inv }
    ensures read { IfOk result
        (HasEquations (fields_view fields.now) presentation.now.names presentation.now.inv) }
    ensures fault { IfErr result
        (IsFirstFrom (fields_view fields.now) (is_there kinds.Equations)) }
{
    let found = needed(alloc, fields, Field::Equations)?;
    let list = found.value();
    let Some(count) = list.place_count() else {
        return Err(PresError::WrongKind {
            field: Field::Equations,
        });
    };
    if count > MOST_EQUATIONS {
        return Err(PresError::TooManyEquations);
    }
    equations_in(alloc, list, count, presentation)
}

/// The equations of a list of so many places, each with its sides' words before the next.
fn equations_in<'a>(
    alloc: Global,
    list: &Value<'a>,
    count: usize,
    presentation: &Presentation,
) -> Result<Equations, PresError>
    requires { length (listed (value_view list.now)) ≡ count }
    ensures read { IfOk result
        (AreEquations presentation.now.names presentation.now.inv
        (places_of (listed (value_view list.now)))) }
    ensures fault { IfErr result
        (IsMemoryOr (IsFirstFault ◌<◌
        (HasFaultAt presentation.now.names presentation.now.inv
        (places_of (listed (value_view list.now)))))) }
{
    let mut equations = Vec::with_capacity(alloc, count)?;
    for place in 0..count {
        equations.push(equation_at(alloc, list.place(place), presentation)?)?;
    }
    Ok(Equations::from_vec(equations))
}

/// The equation at a place of the list, its left side first.
fn equation_at(
    alloc: Global,
    place: Place<'_, '_>,
    presentation: &Presentation,
) -> Result<(Word, Word), PresError>
    ensures read { IfOk result
        (IsEquation presentation.now.names presentation.now.inv (place_view place.entry)) }
    ensures fault { IfErr result
        (IsMemoryOr
        (PlaceHasFault presentation.now.names presentation.now.inv (place_view place.entry))) }
{
    let sides = sides_at(alloc, place)?;
    let Some((left, right)) = sides else {
        return Err(PresError::WrongKind {
            field: Field::Equations,
        });
    };
    let left = word_of(alloc, &left, presentation)?;
    let right = word_of(alloc, &right, presentation)?;
    Ok((left, right))
}
