//! The fields `ordering` and `weight`: the order of words.

ghost use Rattle.std.specs.Prelude.{◌≡◌, ◌≢◌, ℕ, List, pos, IfOk, IfErr, IfSome, IfNone};
ghost use Rattle.kb_word.specs.Weights.{IsWeight};
ghost use Rattle.kb_fields.specs.Fields.{fields_view};
ghost use Rattle.kb_presfile.specs.Holds.{IsOrdering, AreWeights, HasWeights, HasOrder, HasNames};
ghost use Rattle.kb_presfile.specs.Checks.{is_there, is_of_kind};
ghost use Rattle.kb_presfile.specs.Faults.{IsFirstFrom};
ghost use Rattle.kb_presfile.specs.declared.error.Field.TheVariants as kinds;
ghost use Rattle.kb_presfile.specs.declared.order.Ordering.TheVariants as orderings;

use crate::error::{Field, PresError};
use crate::fields::needed;
use crate::values::string_of;
use kb_fields::{field_named, numbers_listed};
use kb_record::RecordField;
use kb_word::{Memory, Names, WordOrder, WtLex};
use std::alloc::Global;

/// The most that a generator may weigh.
const MOST_WEIGHT: i64 = 1000;

/// An ordering that a file may name.
#[derive(Clone, Copy)]
pub enum Ordering {
    /// `"shortlex"`, which stands where none is given
    ShortLex,
    /// `"wtlex"`
    WtLex,
}

/// The ordering that the file names. Another one is refused.
pub fn read_ordering<'a>(alloc: Global, fields: &[RecordField<'a>]) -> Result<Ordering, PresError>
    ensures read { IfOk result (IsOrdering (fields_view fields.now)) }
    ensures fault { IfErr result
        (IsFirstFrom (fields_view fields.now) (is_of_kind kinds.Ordering)) }
{
    let Some(found) = field_named(alloc, fields, "ordering")? else {
        return Ok(Ordering::ShortLex);
    };
    let Some(text) = string_of(found.value()) else {
        return Err(PresError::WrongKind {
            field: Field::Ordering,
        });
    };
    if text == "shortlex" {
        return Ok(Ordering::ShortLex);
    }
    if text == "wtlex" {
        return Ok(Ordering::WtLex);
    }
    Err(PresError::OtherOrdering)
}

/// The order of words of a file that names this ordering. By weight there is a weight for each generator.
pub fn read_order<'a>(
    alloc: Global,
    fields: &[RecordField<'a>],
    ordering: Ordering,
    names: &Names,
) -> Result<WordOrder, PresError>
    requires ordering { IsOrdering (fields_view fields.now) ordering }
    requires named { HasNames (fields_view fields.now) names.now }
    ensures read { IfOk result (HasOrder (fields_view fields.now) names.now) }
    ensures fault { IfErr result
        (IsFirstFrom (fields_view fields.now) (is_there kinds.Weight)) }
{
    match ordering {
        Ordering::ShortLex => Ok(WordOrder::ShortLex),
        Ordering::WtLex => Ok(WordOrder::WtLex(read_weights(alloc, fields, names)?)),
    }
}

/// The generators' weights, in a file whose order goes by weight.
fn read_weights<'a>(
    alloc: Global,
    fields: &[RecordField<'a>],
    names: &Names,
) -> Result<WtLex, PresError>
    requires ordering { IsOrdering (fields_view fields.now) orderings.WtLex }
    requires named { HasNames (fields_view fields.now) names.now }
    ensures read { IfOk result (HasWeights (fields_view fields.now) names.now) }
    ensures fault { IfErr result
        (IsFirstFrom (fields_view fields.now) (is_there kinds.Weight)) }
{
    let found = needed(alloc, fields, Field::Weight)?;
    let Some(numbers) = numbers_listed(alloc, found.value())? else {
        return Err(PresError::WrongKind {
            field: Field::Weight,
        });
    };
    match weights_of(alloc, numbers.as_slice(), names.len())? {
        Some(order) => Ok(order),
        None => Err(PresError::WeightsWrong),
    }
}

/// The order by these numbers as weights of so many generators, if they are such.
fn weights_of(alloc: Global, numbers: &[i64], count: usize) -> Result<Option<WtLex>, Memory>
    ensures some { IfOk result (λ order. IfSome order (AreWeights count numbers.now)) }
    ensures none { IfOk result
        (λ order. IfNone order ((weights : List ℕ) → ¬ AreWeights count numbers.now weights)) }
{
    if numbers.len() != count {
        return Ok(None);
    }
    let mut weights = Vec::with_capacity(alloc, numbers.len())?;
    for number in numbers {
        let Some(weight) = weight_of(*number) else {
            return Ok(None);
        };
        weights.push(weight)?;
    }
    Ok(Some(WtLex::from_vec(weights)))
}

/// The number as a weight, if it is one.
fn weight_of(number: i64) -> Option<u16>
    ensures weight { IfSome result (λ weight. (number ≡ pos weight) × IsWeight weight) }
    ensures none { IfNone result ((weight : ℕ) → IsWeight weight → number ≢ pos weight) }
{
    if number < 1 || number > MOST_WEIGHT {
        return None;
    }
    Some(number as u16)
}
