//! From bytes to the generators of a subgroup.

ghost use Rattle.std.specs.Prelude.{◌≡◌, ◌↔◌, ◌+◌, ◌≤◌, ℕ, List, length, Some, All, IsTrue, IfOk, IfErr, OnOk};
ghost use Rattle.kb_word.specs.Presentations.{PresentationParts, parts_of};
ghost use Rattle.kb_word.specs.Relations.{IsOver};
ghost use Rattle.kb_record.specs.Tree.{Fields, record_value};
ghost use Rattle.kb_record.specs.View.{value_view};
ghost use Rattle.kb_fields.specs.Fields.{fields_view, value_of, HasFieldTwice};
ghost use Rattle.kb_presfile.specs.Holds.{most_equations};
ghost use Rattle.kb_subfile.specs.Checks.{are_words};
ghost use Rattle.kb_subfile.specs.Holds.{field_name, Lists, HoldsGenerators, GeneratorsOf};
ghost use Rattle.kb_subfile.specs.Faults.{IsMemoryOr, IsFirstOf, IsFirstFrom, HasSubFault};

use crate::error::SubError;
use crate::words::{meanings, word_count};
use kb_fields::{field_named, repeated_name};
use kb_record::{RecordField, Value, parse};
use kb_word::{Presentation, Word};
use std::alloc::Global;

/// A presentation has at most so many equations.
const MOST_EQUATIONS: usize = 65535;

/// Reads a file of a subgroup's generators, which are words of a presentation.
///
/// The bytes are a text of a record with the field that the head of the crate names. A refusal names the first fault
/// that they have, in the order of refusals, and bytes that say generators have none
/// ([`a_subgroup_file_has_no_fault`](crate::a_subgroup_file_has_no_fault)): so bytes are refused exactly where they
/// have a fault, or memory runs out.
pub fn read(alloc: Global, bytes: &[u8], presentation: &Presentation) -> Result<Vec<Word>, SubError>
    ensures read { IfOk result
        (λ generators. GeneratorsOf bytes.now (parts_of presentation.now) generators.items) }
    ensures letters { IfOk result
        (λ generators. All (IsOver (length presentation.now.names)) generators.items) }
    ensures fault { IfErr result (HasSubFault (parts_of presentation.now) bytes.now) }
{
    let text = parse(alloc, bytes)?;
    generators_of(alloc, text.fields.as_slice(), presentation)
}

/// The generators that fields say. Check by check, in the order in which a file is refused.
fn generators_of<'a>(
    alloc: Global,
    fields: &[RecordField<'a>],
    presentation: &Presentation,
) -> Result<Vec<Word>, SubError>
    ensures read { IfOk result (λ generators.
        HoldsGenerators (fields_view fields.now) (parts_of presentation.now) generators.items) }
    ensures letters { IfOk result
        (λ generators. All (IsOver (length presentation.now.names)) generators.items) }
    ensures fault { IfErr result
        (IsMemoryOr (IsFirstOf (parts_of presentation.now) (fields_view fields.now))) }
{
    check_once(alloc, fields)?;
    let Some(found) = field_named(alloc, fields, "subGenerators")? else {
        return Err(SubError::MissingField);
    };
    generators_in(alloc, found.value(), presentation)
}

/// The generators that a value lists.
fn generators_in<'a>(
    alloc: Global,
    value: &Value<'a>,
    presentation: &Presentation,
) -> Result<Vec<Word>, SubError>
    ensures read { IfOk result (λ generators. Lists (parts_of presentation.now)
        (value_view value.now) generators.items) }
    ensures letters { IfOk result
        (λ generators. All (IsOver (length presentation.now.names)) generators.items) }
    ensures fault { (given : Fields) → value_of given field_name ≡ Some (value_view value.now)
        → IfErr result (IsFirstFrom (parts_of presentation.now) given are_words) }
{
    let Some(count) = word_count(value) else {
        return Err(SubError::WrongKind);
    };
    if !are_few(count, presentation.eqs.len()) {
        return Err(SubError::TooManyEquations);
    }
    meanings(alloc, value, count, presentation)
}

/// Whether so many words and equations are no more together than a presentation may have.
fn are_few(words: usize, equations: usize) -> bool
    ensures { IsTrue result ↔ (words + equations ≤ most_equations) }
{
    words <= MOST_EQUATIONS && equations <= MOST_EQUATIONS - words
}

/// Refuses a record with a field name twice, nested ones too.
fn check_once<'a>(alloc: Global, fields: &[RecordField<'a>]) -> Result<(), SubError>
    ensures once { OnOk result
        ((name : List ℕ) → ¬ HasFieldTwice (record_value (fields_view fields.now)) name) }
    ensures fault { IfErr result (λ error. (parts : PresentationParts)
        → IsMemoryOr (IsFirstOf parts (fields_view fields.now)) error) }
{
    match repeated_name(alloc, fields)? {
        Some(field) => Err(SubError::FieldTwice { field }),
        None => Ok(()),
    }
}
