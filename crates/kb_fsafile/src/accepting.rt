//! The field `accepting`: which states accept.

ghost use Rattle.std.specs.Prelude.{◌≡◌, ◌↔◌, ◌<◌, ◌≤◌, ℕ, suc, length, get_or, false, IsTrue, All, Contains, IfOk, IfErr};
ghost use Rattle.kb_record.specs.Tree.{list_value, range_value};
ghost use Rattle.kb_fields.specs.Fields.{fields_view};
ghost use Rattle.kb_fsafile.specs.Kinds.{list_of_numbers};
ghost use Rattle.kb_fsafile.specs.Holds.{HoldsStates};
ghost use Rattle.kb_fsafile.specs.Checks.{order_of, accepting_field};
ghost use Rattle.kb_fsafile.specs.Reading.{IsAcceptingState, StandsForStates, HasAcceptingStates, AreStates, IsOutside, IsMemoryOr, IsFirstFrom};

use crate::error::{Field, FsaError};
use crate::fields::needed_value;
use crate::values::{number_within, range_of};
use kb_fields::numbers_listed;
use kb_record::{RecordField, Value};
use kb_word::Memory;
use std::alloc::Global;

/// The accepting states as a file gives them.
#[derive(Drop)]
pub enum Accepting {
    /// These states.
    Listed(Vec<u64>),
    /// Each state from one to another.
    Range(u64, u64),
}

impl Accepting {
    /// Whether states 1, 2, and so on accept.
    pub fn answers(&self, alloc: Global, count: usize) -> Result<Vec<bool>, Memory>
        requires { (state : ℕ) → IsAcceptingState self.now state → (0 < state) × (state ≤ count) }
        ensures one_each { IfOk result (λ answers. length answers.items ≡ count) }
        ensures each { IfOk result
            (λ answers. (place : ℕ)
            → IsTrue (get_or answers.items place false)
            ↔ IsAcceptingState self.now (suc place)) }
    {
        match self {
            Accepting::Listed(states) => accepting_marks(alloc, states.as_slice(), count),
            Accepting::Range(from, to) => range_marks(alloc, *from, *to, count),
        }
    }
}

/// Marks of the states, among so many.
fn accepting_marks(alloc: Global, states: &[u64], count: usize) -> Result<Vec<bool>, Memory>
    requires { All (λ state. (0 < state) × (state ≤ count)) states.now }
    ensures one_each { IfOk result (λ marks. length marks.items ≡ count) }
    ensures each { IfOk result
        (λ marks. (place : ℕ)
        → IsTrue (get_or marks.items place false) ↔ Contains states.now (suc place)) }
{
    let mut marks = vec![in alloc; false; count]?;
    for state in states {
        marks[(*state - 1) as usize] = true;
    }
    Ok(marks)
}

/// Marks of the states from one to another, among so many.
fn range_marks(alloc: Global, from: u64, to: u64, count: usize) -> Result<Vec<bool>, Memory>
    requires first { 0 < from }
    requires last { from ≤ to → to ≤ count }
    ensures one_each { IfOk result (λ marks. length marks.items ≡ count) }
    ensures each { IfOk result
        (λ marks. (place : ℕ)
        → IsTrue (get_or marks.items place false) ↔ ((from ≤ suc place) × (suc place ≤ to))) }
{
    let mut marks = vec![in alloc; false; count]?;
    for place in (from - 1) as usize..to as usize {
        marks[place] = true;
    }
    Ok(marks)
}

/// The accepting ones of so many states.
pub fn read_accepting<'a>(
    alloc: Global,
    fields: &[RecordField<'a>],
    count: u64,
) -> Result<Accepting, FsaError>
    requires { HoldsStates (fields_view fields.now) count }
    ensures read { IfOk result (HasAcceptingStates (fields_view fields.now) count) }
    ensures fault { IfErr result
        (IsFirstFrom (order_of accepting_field) (fields_view fields.now)) }
{
    let found = needed_value(alloc, fields, Field::Accepting)?;
    let value = found.value();
    if let Some((from, to)) = range_of(value) {
        return range_within(from, to, count);
    }
    if let Value::Numbers(numbers) = value {
        return listed_within(alloc, numbers.as_slice(), count);
    }
    let Some(numbers) = numbers_listed(alloc, value)? else {
        return Err(FsaError::WrongKind {
            field: Field::Accepting,
        });
    };
    listed_within(alloc, numbers.as_slice(), count)
}

/// The states of a range. One whose first number is above its last has none, whatever its numbers are.
fn range_within(from: i64, to: i64, count: u64) -> Result<Accepting, FsaError>
    ensures read { IfOk result (StandsForStates count (range_value from to)) }
    ensures fault { IfErr result (IsOutside count (range_value from to)) }
{
    if from > to {
        return Ok(Accepting::Range(1, 0));
    }
    let Some(from) = number_within(from, count) else {
        return Err(FsaError::TargetOutOfRange);
    };
    match number_within(to, count) {
        Some(to) => Ok(Accepting::Range(from, to)),
        None => Err(FsaError::TargetOutOfRange),
    }
}

/// The states of a list.
fn listed_within(alloc: Global, numbers: &[i64], count: u64) -> Result<Accepting, FsaError>
    ensures read { IfOk result (StandsForStates count (list_value (list_of_numbers numbers.now))) }
    ensures fault { IfErr result
        (IsMemoryOr (IsOutside count (list_value (list_of_numbers numbers.now)))) }
{
    let mut states = Vec::with_capacity(alloc, numbers.len())?;
    for number in numbers {
        let Some(state) = number_within(*number, count) else {
            return Err(FsaError::TargetOutOfRange);
        };
        states.push(state)?;
    }
    Ok(Accepting::Listed(states))
}
