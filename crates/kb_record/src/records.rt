//! Values: from tokens to the trees of what fields and lists hold.
//!
//! The clauses `shorter` are for the end of the recursion alone: what is read takes tokens.

ghost use Rattle.std.specs.Prelude.{◌≡◌, ◌≤◌, ◌∷◌, [], length, map, Some, OnOk, IfOk};
ghost use Rattle.kb_lexing.specs.declared.place.Expected.TheVariants as wanted;
ghost use Rattle.kb_record.specs.declared.cursor.Mark.TheVariants as marks;
ghost use Rattle.kb_record.specs.Tree.{number_value, word_value};
ghost use Rattle.kb_record.specs.Nesting.{deepest};
ghost use Rattle.kb_record.specs.Reading.{Reads, remaining, whole_of, row, passes_comma, place_with, field_with, range_from, read_list, read_fields, read_record, read_word, reading_map, read_value, read_places, number_with, after_items, list_from};
ghost use Rattle.kb_record.specs.View.{value_view, field_view, written_field, place_from};
ghost use Rattle.kb_record.specs.Listed.{HasPlaces};

use crate::cursor::{Cursor, Mark, Stop};
use crate::numbers::number_list;
use crate::passing::pass_word;
use crate::tree::{Field, FieldText, RecordField, Value, WrittenPlaces};
use kb_lexing::Expected;
use kb_word::Memory;
use std::alloc::Global;

/// A field of so many bytes at most is kept as it is written.
const SHORT: usize = 256;

/// Reads a value, with brackets in brackets at most `depth` deep.
#[cycle(values)]
pub(crate) fn value<'a>(
    alloc: Global,
    tokens: &mut Cursor<'a>,
    depth: usize,
) -> Result<Value<'a>, Stop>
    requires { depth ≤ deepest }
    ensures reads { Reads (read_value depth (remaining tokens.old)) value_view result
        (remaining tokens.new) }
    ensures shorter { OnOk result (length (remaining tokens.new) ≤ length (remaining tokens.old)) }
    ensures whole { OnOk result (whole_of tokens.new ≡ whole_of tokens.old) }
{
    if tokens.begins_word() {
        return word_value(tokens, depth);
    }
    if tokens.take(Mark::Rec) {
        return record(alloc, tokens, depth);
    }
    if tokens.take(Mark::OpenSquare) {
        return list(alloc, tokens, depth);
    }
    tokens.scalar()
}

/// Reads a word as a value.
fn word_value<'a>(tokens: &mut Cursor<'a>, depth: usize) -> Result<Value<'a>, Stop>
    requires { depth ≤ deepest }
    ensures reads { Reads (reading_map word_value (read_word depth (remaining tokens.old)))
        value_view
        result (remaining tokens.new) }
    ensures shorter { OnOk result (length (remaining tokens.new) ≤ length (remaining tokens.old)) }
    ensures whole { OnOk result (whole_of tokens.new ≡ whole_of tokens.old) }
{
    let word = tokens.word();
    pass_word(tokens, depth)?;
    Ok(Value::Word(word))
}

/// Reads a record behind its `rec`.
#[cycle(values)]
fn record<'a>(alloc: Global, tokens: &mut Cursor<'a>, depth: usize) -> Result<Value<'a>, Stop>
    requires { depth ≤ deepest }
    ensures reads { Reads (read_record depth (remaining tokens.old)) value_view result
        (remaining tokens.new) }
    ensures shorter { OnOk result (length (remaining tokens.new) ≤ length (remaining tokens.old)) }
    ensures whole { OnOk result (whole_of tokens.new ≡ whole_of tokens.old) }
{
    tokens.expect(Mark::OpenRound, Expected::Fields)?;
    let fields = fields(alloc, tokens, depth)?;
    Ok(Value::Record(fields))
}

/// Reads the fields of a record behind its open bracket, and the closing bracket.
#[cycle(values)]
pub(crate) fn fields<'a>(
    alloc: Global,
    tokens: &mut Cursor<'a>,
    depth: usize,
) -> Result<Vec<RecordField<'a>>, Stop>
    requires { depth ≤ deepest }
    ensures reads { Reads (read_fields depth (remaining tokens.old))
        (λ fields. map field_view fields.items)
        result (remaining tokens.new) }
    ensures shorter { OnOk result (length (remaining tokens.new) ≤ length (remaining tokens.old)) }
    ensures whole { OnOk result (whole_of tokens.new ≡ whole_of tokens.old) }
{
    if depth == 0 {
        return Err(Stop::TooDeep);
    }
    if tokens.take(Mark::CloseRound) {
        return Ok(Vec::new(alloc));
    }
    some_fields(alloc, tokens, depth - 1)
}

/// Reads fields joined by `,`, of which there is at least one, and the closing bracket.
#[cycle(values)]
fn some_fields<'a>(
    alloc: Global,
    tokens: &mut Cursor<'a>,
    depth: usize,
) -> Result<Vec<RecordField<'a>>, Stop>
    requires { depth ≤ deepest }
    ensures reads { Reads
        (row (field_with (read_value depth)) (passes_comma marks.CloseRound wanted.Mark)
        (remaining tokens.old))
        (λ fields. map field_view fields.items) result (remaining tokens.new) }
    ensures shorter { OnOk result (length (remaining tokens.new) ≤ length (remaining tokens.old)) }
    ensures whole { OnOk result (whole_of tokens.new ≡ whole_of tokens.old) }
{
    let mut fields = Vec::with_capacity(alloc, 1)?;
    loop {
        fields.push(field(alloc, tokens, depth)?)?;
        if !tokens.passes_comma(Mark::CloseRound, Expected::Mark)? {
            return Ok(fields);
        }
    }
}

/// Reads a field: its name, `:=` and its value.
#[cycle(values)]
fn field<'a>(alloc: Global, tokens: &mut Cursor<'a>, depth: usize) -> Result<RecordField<'a>, Stop>
    requires { depth ≤ deepest }
    ensures reads { Reads (field_with (read_value depth) (remaining tokens.old)) field_view result
        (remaining tokens.new) }
    ensures shorter { OnOk result (length (remaining tokens.new) ≤ length (remaining tokens.old)) }
    ensures whole { OnOk result (whole_of tokens.new ≡ whole_of tokens.old) }
{
    let text = tokens.field_text();
    let begin = tokens.place();
    let name = tokens.name()?;
    tokens.expect(Mark::Assign, Expected::Assign)?;
    let value = value(alloc, tokens, depth)?;
    let length = tokens.place().saturating_sub(begin);
    Ok(kept_field(alloc, text, length, name, value)?)
}

/// The field that stands first in a text, by its length, its name and its value.
fn kept_field<'a>(
    alloc: Global,
    text: FieldText<'a>,
    length: usize,
    name: &'a str,
    value: Value<'a>,
) -> Result<RecordField<'a>, Memory>
    requires { written_field text ≡ (name.now, value_view value) }
    ensures { IfOk result (λ field. field_view field ≡ (name.now, value_view value.entry)) }
{
    if length <= SHORT {
        return Ok(Field::Written(text));
    }
    let value = Box::new(alloc, value)?;
    Ok(Field::Read(name, value))
}

/// Reads a list or a range behind its open bracket, and the closing bracket.
#[cycle(values)]
fn list<'a>(alloc: Global, tokens: &mut Cursor<'a>, depth: usize) -> Result<Value<'a>, Stop>
    requires { depth ≤ deepest }
    ensures reads { Reads (read_list depth (remaining tokens.old)) value_view result
        (remaining tokens.new) }
    ensures shorter { OnOk result (length (remaining tokens.new) ≤ length (remaining tokens.old)) }
    ensures whole { OnOk result (whole_of tokens.new ≡ whole_of tokens.old) }
{
    let start = *tokens;
    let found = number_list(alloc, tokens, depth)?;
    if let Some(list) = found {
        return Ok(list);
    }
    *tokens = start;
    any_list(alloc, tokens, depth)
}

/// Reads a list of any values or a range behind its open bracket, and the closing bracket.
#[cycle(values)]
fn any_list<'a>(alloc: Global, tokens: &mut Cursor<'a>, depth: usize) -> Result<Value<'a>, Stop>
    requires { depth ≤ deepest }
    ensures reads { Reads (read_list depth (remaining tokens.old)) value_view result
        (remaining tokens.new) }
    ensures shorter { OnOk result (length (remaining tokens.new) ≤ length (remaining tokens.old)) }
    ensures whole { OnOk result (whole_of tokens.new ≡ whole_of tokens.old) }
{
    if depth == 0 {
        return Err(Stop::TooDeep);
    }
    if tokens.take(Mark::CloseSquare) {
        return Ok(list_with(tokens.whole(), Vec::new(alloc)));
    }
    let first = tokens.place();
    match tokens.take_number() {
        Some(number) => behind_number(alloc, tokens, depth - 1, first, number),
        None => without_number(alloc, tokens, depth - 1),
    }
}

/// Reads the rest of a list or a range behind the number that comes first in it, and the closing bracket.
#[cycle(values)]
fn behind_number<'a>(
    alloc: Global,
    tokens: &mut Cursor<'a>,
    depth: usize,
    first: usize,
    number: i64,
) -> Result<Value<'a>, Stop>
    requires within { depth ≤ deepest }
    requires written { place_from (whole_of tokens.old) first ≡ Some (number_value number) }
    ensures reads { Reads (number_with (read_value depth) number (remaining tokens.old)) value_view
        result (remaining tokens.new) }
    ensures shorter { OnOk result (length (remaining tokens.new) ≤ length (remaining tokens.old)) }
    ensures whole { OnOk result (whole_of tokens.new ≡ whole_of tokens.old) }
{
    if tokens.take(Mark::Dots) {
        return range(tokens, number);
    }
    let before = one_place(alloc, first)?;
    if !tokens.passes_comma(Mark::CloseSquare, Expected::Dots)? {
        return Ok(list_with(tokens.whole(), before));
    }
    list_of_places(alloc, tokens, depth, before)
}

/// A place that begins here.
fn one_place(alloc: Global, begin: usize) -> Result<Vec<u32>, Memory>
    ensures { IfOk result (λ begins. begins.items ≡ begin ∷ []) }
{
    let mut begins = Vec::with_capacity(alloc, 1)?;
    begins.push(begin_of(begin)?)?;
    Ok(begins)
}

/// The number as a `u32`. A text that is so long takes more memory than there is.
fn begin_of(begin: usize) -> Result<u32, Memory>
    ensures { IfOk result (λ number. number ≡ begin) }
{
    u32::try_from(begin).map_err(|_| Memory)
}

/// The list of the places that begin here in a text.
fn list_with<'a>(text: &'a [u8], begins: Vec<u32>) -> Value<'a>
    ensures { HasPlaces (value_view result) (map (place_from text.now) begins.items) }
{
    Value::List(WrittenPlaces { text, begins })
}

/// Reads a list in which no number comes first, behind its open bracket, and the closing bracket.
#[cycle(values)]
fn without_number<'a>(
    alloc: Global,
    tokens: &mut Cursor<'a>,
    depth: usize,
) -> Result<Value<'a>, Stop>
    requires { depth ≤ deepest }
    ensures reads { Reads (list_from (read_places (read_value depth) (remaining tokens.old)))
        value_view
        result (remaining tokens.new) }
    ensures shorter { OnOk result (length (remaining tokens.new) ≤ length (remaining tokens.old)) }
    ensures whole { OnOk result (whole_of tokens.new ≡ whole_of tokens.old) }
{
    let before = Vec::with_capacity(alloc, 1)?;
    list_of_places(alloc, tokens, depth, before)
}

/// Reads the rest of a list behind the places that were read, and the closing bracket.
#[cycle(values)]
fn list_of_places<'a>(
    alloc: Global,
    tokens: &mut Cursor<'a>,
    depth: usize,
    before: Vec<u32>,
) -> Result<Value<'a>, Stop>
    requires { depth ≤ deepest }
    ensures reads { Reads
        (list_from (after_items (map (place_from (whole_of tokens.old)) before.items)
        (read_places (read_value depth) (remaining tokens.old))))
        value_view result (remaining tokens.new) }
    ensures shorter { OnOk result (length (remaining tokens.new) ≤ length (remaining tokens.old)) }
    ensures whole { OnOk result (whole_of tokens.new ≡ whole_of tokens.old) }
{
    let places = places(alloc, tokens, depth, before)?;
    Ok(list_with(tokens.whole(), places))
}

/// Reads places joined by `,`, behind those that were read, and the closing bracket. Of each is kept where it begins.
#[cycle(values)]
fn places<'a>(
    alloc: Global,
    tokens: &mut Cursor<'a>,
    depth: usize,
    before: Vec<u32>,
) -> Result<Vec<u32>, Stop>
    requires { depth ≤ deepest }
    ensures reads { Reads
        (after_items (map (place_from (whole_of tokens.old)) before.items)
        (read_places (read_value depth) (remaining tokens.old)))
        (λ places. map (place_from (whole_of tokens.old)) places.items) result
        (remaining tokens.new) }
    ensures shorter { OnOk result (length (remaining tokens.new) ≤ length (remaining tokens.old)) }
    ensures whole { OnOk result (whole_of tokens.new ≡ whole_of tokens.old) }
{
    let mut places = before;
    loop {
        places.push(place(alloc, tokens, depth)?)?;
        if !tokens.passes_comma(Mark::CloseSquare, Expected::Mark)? {
            return Ok(places);
        }
    }
}

/// Reads a value, or nothing where a place is empty, and keeps where it begins.
#[cycle(values)]
fn place<'a>(alloc: Global, tokens: &mut Cursor<'a>, depth: usize) -> Result<u32, Stop>
    requires { depth ≤ deepest }
    ensures reads { Reads (place_with (read_value depth) (remaining tokens.old))
        (place_from (whole_of tokens.old)) result (remaining tokens.new) }
    ensures shorter { OnOk result (length (remaining tokens.new) ≤ length (remaining tokens.old)) }
    ensures whole { OnOk result (whole_of tokens.new ≡ whole_of tokens.old) }
{
    let begin = begin_of(tokens.place())?;
    if tokens.ends_place() {
        return Ok(begin);
    }
    value(alloc, tokens, depth)?;
    Ok(begin)
}

/// Reads the rest of a range behind its dots, and the closing bracket.
fn range<'a>(tokens: &mut Cursor<'a>, from: i64) -> Result<Value<'a>, Stop>
    ensures reads { Reads (range_from from (remaining tokens.old)) value_view result
        (remaining tokens.new) }
    ensures shorter { OnOk result (length (remaining tokens.new) ≤ length (remaining tokens.old)) }
    ensures whole { OnOk result (whole_of tokens.new ≡ whole_of tokens.old) }
{
    let to = tokens.number()?;
    tokens.expect(Mark::CloseSquare, Expected::Mark)?;
    Ok(Value::Range(from, to))
}
