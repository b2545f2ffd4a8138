//! The printing of a whole tree.

ghost use Rattle.std.specs.Prelude.{◌≡◌, ◌++◌, OnOk, OnErr, IfOk, suc, codes, [], ◌∷◌};
ghost use Rattle.kb_record.specs.Tree.{string_value, record_value, list_value, range_value};
ghost use Rattle.kb_record.specs.View.{text_view, value_view, field_view, fields_view, places_view, factor_view, factors_view, word_view, written_place};
ghost use Rattle.kb_layout.specs.Layout.{printed, power_text, word_text, factor_text, line_of, indent, text_of_value};
ghost use Rattle.kb_layout.specs.Layout as layout;
ghost use Rattle.std.specs.Option.{option_map};
ghost use Rattle.kb_layout.specs.Printing.{Appended, line_of_place, row_of_place, holds_list};

use crate::printing::{print_blanks, print_number};
use crate::rows::{print_items, print_lists, print_lists_on_line};
use kb_record::{Expr, Factor, PlaceText, Rec, RecordField, Value, WrittenPlaces};
use kb_word::Memory;
use std::alloc::Global;

/// Appends the printed text of a record: a line for each field, and for each place of a list of lists.
pub fn print(text: &Rec<'_>, out: &mut Vec<u8>) -> Result<(), Memory>
    ensures printed { OnOk result (out.new.items ≡ out.old.items ++ printed (text_view text.now)) }
    ensures kept { OnErr result (out.new.items ≡ out.old.items) }
{
    let length = out.len();
    let appended = print_text(text, out);
    if appended.is_err() {
        out.truncate(length);
    }
    appended
}

/// Appends the printed text of a record. Like the private functions below, it may have appended a part of
/// the text where memory runs out.
fn print_text(text: &Rec<'_>, out: &mut Vec<u8>) -> Result<(), Memory>
    ensures printed { OnOk result (out.new.items ≡ out.old.items ++ printed (text_view text.now)) }
    ensures kept { OnErr result (Appended out.old.items out.new.items) }
{
    print_name(text.name, out)?;
    print_record(0, text.fields.as_slice(), out)?;
    out.extend_from_slice(b";\n")?;
    Ok(())
}

/// Appends a value at a level: a record has a line for each field, a list of lists one for each place.
#[cycle(levels)]
fn print_value(level: usize, value: &Value<'_>, out: &mut Vec<u8>) -> Result<(), Memory>
    ensures printed { OnOk result
        (out.new.items ≡ out.old.items ++ text_of_value level (value_view value.now)) }
    ensures kept { OnErr result (Appended out.old.items out.new.items) }
{
    match value {
        Value::Record(fields) => print_record(level, fields.as_slice(), out),
        Value::List(places) => print_list(level, places, out),
        Value::Numbers(numbers) => print_items(numbers.as_slice(), out),
        Value::Rows(rows) => print_lists(level, rows, out),
        Value::Entries(rows) => print_lists(level, rows, out),
        _ => print_on_line(value, out),
    }
}

/// Appends a record at a level, each field on a line of its own.
#[cycle(levels)]
fn print_record(level: usize, fields: &[RecordField<'_>], out: &mut Vec<u8>) -> Result<(), Memory>
    ensures printed { OnOk result (out.new.items
        ≡ out.old.items ++ text_of_value level (record_value (fields_view fields.now))) }
    ensures kept { OnErr result (Appended out.old.items out.new.items) }
{
    let inside = one_level_in(level)?;
    out.extend_from_slice(b"rec(")?;
    let mut before: &[u8] = b"\n";
    for field in fields {
        out.extend_from_slice(before)?;
        print_field(inside, field, out)?;
        before = b",\n";
    }
    print_close(level, b')', out)
}

/// Appends a field at a level, without what ends its line.
#[cycle(levels)]
fn print_field(level: usize, field: &RecordField<'_>, out: &mut Vec<u8>) -> Result<(), Memory>
    ensures printed { OnOk result (out.new.items
        ≡ out.old.items
        ++ (indent level ++ (field_view field.now).0 ++ codes " := "
        ++ text_of_value level (field_view field.now).1)) }
    ensures kept { OnErr result (Appended out.old.items out.new.items) }
{
    print_blanks(level, out)?;
    print_name(field.name(), out)?;
    let value = field.value(*out.allocator())?;
    print_value(level, value.value(), out)
}

/// Appends a list at a level: where each place holds a list, each is on a line of its own.
fn print_list(level: usize, places: &WrittenPlaces<'_>, out: &mut Vec<u8>) -> Result<(), Memory>
    ensures printed { OnOk result (out.new.items
        ≡ out.old.items ++ text_of_value level (list_value (places_view places.now))) }
    ensures kept { OnErr result (Appended out.old.items out.new.items) }
{
    let table = is_table(*out.allocator(), places)?;
    if !table {
        return print_list_on_line(places, out);
    }
    let inside = one_level_in(level)?;
    out.push(b'[')?;
    let mut before: &[u8] = b"\n";
    for place in 0..places.len() {
        out.extend_from_slice(before)?;
        print_row(inside, places.get(place), out)?;
        before = b",\n";
    }
    print_close(level, b']', out)
}

/// Appends the value of a place at a level, on one line.
fn print_row(level: usize, place: PlaceText<'_>, out: &mut Vec<u8>) -> Result<(), Memory>
    ensures printed { OnOk result
        (out.new.items ≡ out.old.items ++ row_of_place level written_place place.entry) }
    ensures kept { OnErr result (Appended out.old.items out.new.items) }
{
    print_blanks(level, out)?;
    print_place(place, out)
}

/// Whether there is a place, and each place holds a list.
fn is_table(alloc: Global, places: &WrittenPlaces<'_>) -> Result<bool, Memory>
    ensures { IfOk result (λ table. table ≡ layout.is_table (places_view places.now)) }
{
    let count = places.len();
    if count == 0 {
        return Ok(false);
    }
    for place in 0..count {
        if !is_list(alloc, places.get(place))? {
            return Ok(false);
        }
    }
    Ok(true)
}

/// Whether the place holds a list.
fn is_list(alloc: Global, place: PlaceText<'_>) -> Result<bool, Memory>
    ensures { IfOk result (λ list. list ≡ holds_list (written_place place.entry)) }
{
    let value = place.value(alloc)?;
    Ok(is_list_value(&value))
}

/// Whether there is a value, and it is a list.
fn is_list_value(value: &Option<Value<'_>>) -> bool
    ensures { result ≡ holds_list (option_map value_view value.now) }
{
    matches!(
        value,
        Some(Value::List(_) | Value::Numbers(_) | Value::Rows(_) | Value::Entries(_))
    )
}

/// The level of what stands within a value. Beyond the last level no memory has room for the text.
pub(crate) fn one_level_in(level: usize) -> Result<usize, Memory>
    ensures { IfOk result (λ inside. inside ≡ suc level) }
{
    level.checked_add(1).ok_or(Memory)
}

/// Appends a name and the `:=` behind it.
fn print_name(name: &str, out: &mut Vec<u8>) -> Result<(), Memory>
    ensures printed { OnOk result (out.new.items ≡ out.old.items ++ (name.now ++ codes " := ")) }
    ensures kept { OnErr result (Appended out.old.items out.new.items) }
{
    out.extend_from_slice(name.as_bytes())?;
    out.extend_from_slice(b" := ")?;
    Ok(())
}

/// Ends the last line, and appends a closing bracket on a line of its own.
pub(crate) fn print_close(level: usize, bracket: u8, out: &mut Vec<u8>) -> Result<(), Memory>
    ensures printed { OnOk result
        (out.new.items ≡ out.old.items ++ (codes "\n" ++ indent level ++ bracket ∷ [])) }
    ensures kept { OnErr result (Appended out.old.items out.new.items) }
{
    out.push(b'\n')?;
    print_blanks(level, out)?;
    out.push(bracket)?;
    Ok(())
}

/// Appends a value on one line.
#[cycle(lines)]
fn print_on_line(value: &Value<'_>, out: &mut Vec<u8>) -> Result<(), Memory>
    ensures printed { OnOk result
        (out.new.items ≡ out.old.items ++ line_of (value_view value.now)) }
    ensures kept { OnErr result (Appended out.old.items out.new.items) }
{
    match value {
        Value::Number(number) => print_number(*number, out),
        Value::String(text) => print_string(text, out),
        Value::Record(fields) => print_record_on_line(fields.as_slice(), out),
        Value::List(places) => print_list_on_line(places, out),
        Value::Numbers(numbers) => print_items(numbers.as_slice(), out),
        Value::Rows(rows) => print_lists_on_line(rows, out),
        Value::Entries(rows) => print_lists_on_line(rows, out),
        Value::Range(from, to) => print_range(*from, *to, out),
        Value::Word(word) => print_expr(word, out),
    }
}

/// Appends a record on one line.
#[cycle(lines)]
fn print_record_on_line(fields: &[RecordField<'_>], out: &mut Vec<u8>) -> Result<(), Memory>
    ensures printed { OnOk result (out.new.items
        ≡ out.old.items ++ line_of (record_value (fields_view fields.now))) }
    ensures kept { OnErr result (Appended out.old.items out.new.items) }
{
    out.extend_from_slice(b"rec(")?;
    let mut before: &[u8] = b"";
    for field in fields {
        out.extend_from_slice(before)?;
        print_field_on_line(field, out)?;
        before = b",";
    }
    out.push(b')')?;
    Ok(())
}

/// Appends a field on one line.
#[cycle(lines)]
fn print_field_on_line(field: &RecordField<'_>, out: &mut Vec<u8>) -> Result<(), Memory>
    ensures printed { OnOk result (out.new.items
        ≡ out.old.items
        ++ ((field_view field.now).0 ++ codes " := " ++ line_of (field_view field.now).1)) }
    ensures kept { OnErr result (Appended out.old.items out.new.items) }
{
    print_name(field.name(), out)?;
    let value = field.value(*out.allocator())?;
    print_on_line(value.value(), out)
}

/// Appends a list on one line.
#[cycle(lines)]
fn print_list_on_line(places: &WrittenPlaces<'_>, out: &mut Vec<u8>) -> Result<(), Memory>
    ensures printed { OnOk result (out.new.items
        ≡ out.old.items ++ line_of (list_value (places_view places.now))) }
    ensures kept { OnErr result (Appended out.old.items out.new.items) }
{
    out.push(b'[')?;
    let mut before: &[u8] = b"";
    for place in 0..places.len() {
        out.extend_from_slice(before)?;
        print_place(places.get(place), out)?;
        before = b",";
    }
    out.push(b']')?;
    Ok(())
}

/// Appends what stands at a place of a list, on one line.
#[cycle(lines)]
fn print_place(place: PlaceText<'_>, out: &mut Vec<u8>) -> Result<(), Memory>
    ensures printed { OnOk result
        (out.new.items ≡ out.old.items ++ line_of_place written_place place.entry) }
    ensures kept { OnErr result (Appended out.old.items out.new.items) }
{
    let value = place.value(*out.allocator())?;
    match value {
        Some(value) => print_on_line(&value, out),
        None => Ok(()),
    }
}

/// Appends a range.
fn print_range(from: i64, to: i64, out: &mut Vec<u8>) -> Result<(), Memory>
    ensures printed { OnOk result (out.new.items ≡ out.old.items ++ line_of (range_value from to)) }
    ensures kept { OnErr result (Appended out.old.items out.new.items) }
{
    out.push(b'[')?;
    print_number(from, out)?;
    out.extend_from_slice(b"..")?;
    print_number(to, out)?;
    out.push(b']')?;
    Ok(())
}

/// Appends a string between its quotes.
fn print_string(text: &str, out: &mut Vec<u8>) -> Result<(), Memory>
    ensures printed { OnOk result
        (out.new.items ≡ out.old.items ++ line_of (string_value text.now)) }
    ensures kept { OnErr result (Appended out.old.items out.new.items) }
{
    out.push(b'"')?;
    out.extend_from_slice(text.as_bytes())?;
    out.push(b'"')?;
    Ok(())
}

/// Appends a word as it is written.
fn print_expr(word: &Expr<'_>, out: &mut Vec<u8>) -> Result<(), Memory>
    ensures printed { OnOk result (out.new.items ≡ out.old.items ++ word_text (word_view word.now)) }
    ensures kept { OnErr result (Appended out.old.items out.new.items) }
{
    let factors = word.factors(*out.allocator())?;
    print_word(factors.as_slice(), out)
}

/// Appends factors with `*` between them.
#[cycle(factors)]
fn print_word(factors: &[Factor<'_>], out: &mut Vec<u8>) -> Result<(), Memory>
    ensures printed { OnOk result
        (out.new.items ≡ out.old.items ++ word_text (factors_view factors.now)) }
    ensures kept { OnErr result (Appended out.old.items out.new.items) }
{
    let mut before: &[u8] = b"";
    for factor in factors {
        out.extend_from_slice(before)?;
        print_factor(factor, out)?;
        before = b"*";
    }
    Ok(())
}

/// Appends a name or a group in brackets, and its power.
#[cycle(factors)]
fn print_factor(factor: &Factor<'_>, out: &mut Vec<u8>) -> Result<(), Memory>
    ensures printed { OnOk result
        (out.new.items ≡ out.old.items ++ factor_text (factor_view factor.now)) }
    ensures kept { OnErr result (Appended out.old.items out.new.items) }
{
    match factor {
        Factor::Name(name, power) => {
            out.extend_from_slice(name.as_bytes())?;
            print_power(*power, out)
        }
        Factor::Group(factors, power) => {
            out.push(b'(')?;
            print_word(factors.as_slice(), out)?;
            out.push(b')')?;
            print_power(*power, out)
        }
    }
}

/// Appends `^` and a power, if there is one.
fn print_power(power: Option<i64>, out: &mut Vec<u8>) -> Result<(), Memory>
    ensures printed { OnOk result (out.new.items ≡ out.old.items ++ power_text power) }
    ensures kept { OnErr result (Appended out.old.items out.new.items) }
{
    let Some(power) = power else {
        return Ok(());
    };
    out.push(b'^')?;
    print_number(power, out)
}
