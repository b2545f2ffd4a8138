//! Lists of numbers alone, lists of such lists, and lists of lists of two numbers each.
//!
//! Each of these calls answers `None` where something else comes. The tokens that are left there mean nothing then: who
//! calls goes back to where the list began.

ghost use Rattle.std.specs.Prelude.{◌≡◌, ◌++◌, ◌≤◌, length, map, Some, OnOk, IfOk, IfSome, Option};
ghost use Rattle.kb_record.specs.Tree as tree;
ghost use Rattle.kb_record.specs.View.{value_view, number_place, entry_place};
ghost use Rattle.kb_record.specs.Reading.{behind, remaining, whole_of, read, read_list};
ghost use Rattle.kb_record.specs.declared.cursor.Mark.TheVariants.{CloseSquare};
ghost use Rattle.kb_record.specs.Numbers.{tokens_at, list_place, SpellsList, IsListSpelled};

use crate::cursor::{Cursor, Mark};
use crate::tree::Value;
use kb_ragged::Ragged;
use kb_word::Memory;
use std::alloc::Global;

/// What such a list holds: a number, or a list of two numbers.
trait Item: Copy {
    /// The place of a tree that the item stands for.
    ghost seen: { Self → Option tree.Value };

    /// Passes the item that comes next, if one does.
    fn pass(tokens: &mut Cursor<'_>) -> Option<Self>
        ensures spelled { IfSome result
            (λ item. remaining tokens.old ≡ tokens_at (seen item) ++ remaining tokens.new) }
        ensures whole { whole_of tokens.new ≡ whole_of tokens.old };
}

impl Item for i64 {
    ghost seen = { number_place };

    fn pass(tokens: &mut Cursor<'_>) -> Option<i64> {
        passed_number(tokens)
    }
}

impl Item for (i64, i64) {
    ghost seen = { entry_place };

    fn pass(tokens: &mut Cursor<'_>) -> Option<(i64, i64)> {
        passed_pair(tokens)
    }
}

/// Passes the number that comes next, if one does.
fn passed_number(tokens: &mut Cursor<'_>) -> Option<i64>
    ensures spelled { IfSome result
        (λ number. remaining tokens.old ≡ tokens_at (number_place number) ++ remaining tokens.new) }
    ensures whole { whole_of tokens.new ≡ whole_of tokens.old }
{
    tokens.take_number()
}

/// Passes a list of two numbers, if it comes next.
fn passed_pair(tokens: &mut Cursor<'_>) -> Option<(i64, i64)>
    ensures spelled { IfSome result
        (λ pair. remaining tokens.old ≡ tokens_at (entry_place pair) ++ remaining tokens.new) }
    ensures whole { whole_of tokens.new ≡ whole_of tokens.old }
{
    if !tokens.take(Mark::OpenSquare) {
        return None;
    }
    let first = passed_number(tokens)?;
    if !tokens.take(Mark::Comma) {
        return None;
    }
    let second = passed_number(tokens)?;
    if !tokens.take(Mark::CloseSquare) {
        return None;
    }
    Some((first, second))
}

/// Which of these a list may be.
#[derive(Clone, Copy)]
enum Form {
    Numbers,
    Rows,
    Entries,
}

/// Which of these a list may be, by its first two tokens behind its open bracket.
fn form_of(tokens: Cursor<'_>) -> Form {
    let mut ahead = tokens;
    if !ahead.take(Mark::OpenSquare) {
        return Form::Numbers;
    }
    if ahead.take(Mark::OpenSquare) {
        return Form::Entries;
    }
    if ahead.take(Mark::CloseSquare) {
        return Form::Entries;
    }
    Form::Rows
}

/// The list behind its open bracket, with the closing bracket, where it is one of these. Where brackets may hardly nest
/// any deeper it isn't tried.
pub(crate) fn number_list<'a>(
    alloc: Global,
    tokens: &mut Cursor<'a>,
    depth: usize,
) -> Result<Option<Value<'a>>, Memory>
    ensures reads { IfOk result (λ found. IfSome found (λ list.
        read_list depth (remaining tokens.old) ≡ read (value_view list) (remaining tokens.new))) }
    ensures shorter { IfOk result (λ found. IfSome found (λ list.
        length (remaining tokens.new) ≤ length (remaining tokens.old))) }
    ensures whole { OnOk result (whole_of tokens.new ≡ whole_of tokens.old) }
{
    if depth < 3 {
        return Ok(None);
    }
    match form_of(*tokens) {
        Form::Numbers => numbers(alloc, tokens),
        Form::Rows => rows(alloc, tokens),
        Form::Entries => entries(alloc, tokens),
    }
}

/// A list of numbers.
fn numbers<'a>(alloc: Global, tokens: &mut Cursor<'a>) -> Result<Option<Value<'a>>, Memory>
    ensures spelled { IfOk result (λ found. IfSome found (λ list.
        IsListSpelled (value_view list) (remaining tokens.old) (remaining tokens.new))) }
    ensures whole { OnOk result (whole_of tokens.new ≡ whole_of tokens.old) }
{
    let found = row(alloc, tokens)?;
    let Some(numbers) = found else {
        return Ok(None);
    };
    Ok(Some(Value::Numbers(numbers)))
}

/// A list of lists of numbers.
fn rows<'a>(alloc: Global, tokens: &mut Cursor<'a>) -> Result<Option<Value<'a>>, Memory>
    ensures spelled { IfOk result (λ found. IfSome found (λ list.
        IsListSpelled (value_view list) (remaining tokens.old) (remaining tokens.new))) }
    ensures whole { OnOk result (whole_of tokens.new ≡ whole_of tokens.old) }
{
    let found = lists(alloc, tokens)?;
    let Some(rows) = found else {
        return Ok(None);
    };
    Ok(Some(Value::Rows(rows)))
}

/// A list of lists of two numbers each.
fn entries<'a>(alloc: Global, tokens: &mut Cursor<'a>) -> Result<Option<Value<'a>>, Memory>
    ensures spelled { IfOk result (λ found. IfSome found (λ list.
        IsListSpelled (value_view list) (remaining tokens.old) (remaining tokens.new))) }
    ensures whole { OnOk result (whole_of tokens.new ≡ whole_of tokens.old) }
{
    let found = lists(alloc, tokens)?;
    let Some(rows) = found else {
        return Ok(None);
    };
    Ok(Some(Value::Entries(rows)))
}

/// The items of a list behind its open bracket, where it has nothing else, and its closing bracket.
fn row<T: Item>(alloc: Global, tokens: &mut Cursor<'_>) -> Result<Option<Vec<T>>, Memory>
    ensures spelled { IfOk result (λ found. IfSome found (λ items.
        SpellsList (map T.seen items.items) (remaining tokens.old) (remaining tokens.new))) }
    ensures whole { OnOk result (whole_of tokens.new ≡ whole_of tokens.old) }
{
    if tokens.take(Mark::CloseSquare) {
        return Ok(Some(Vec::new(alloc)));
    }
    items(alloc, tokens)
}

/// The same of a list that has an item.
fn items<T: Item>(alloc: Global, tokens: &mut Cursor<'_>) -> Result<Option<Vec<T>>, Memory>
    ensures spelled { IfOk result (λ found. IfSome found (λ items.
        SpellsList (map T.seen items.items) (remaining tokens.old) (remaining tokens.new))) }
    ensures whole { OnOk result (whole_of tokens.new ≡ whole_of tokens.old) }
{
    let mut items = Vec::new(alloc);
    loop {
        let Some(item) = T::pass(tokens) else {
            return Ok(None);
        };
        items.push(item)?;
        if !tokens.take(Mark::Comma) {
            return Ok(closed(tokens, items));
        }
    }
}

/// The lists of items in a list behind its open bracket, where it has nothing else, and its closing bracket.
fn lists<T: Item>(alloc: Global, tokens: &mut Cursor<'_>) -> Result<Option<Ragged<T>>, Memory>
    ensures spelled { IfOk result (λ found. IfSome found (λ lists.
        SpellsList (map (list_place T.seen) lists) (remaining tokens.old) (remaining tokens.new))) }
    ensures whole { OnOk result (whole_of tokens.new ≡ whole_of tokens.old) }
{
    let mut lists = Ragged::new(alloc)?;
    loop {
        if !tokens.take(Mark::OpenSquare) {
            return Ok(None);
        }
        let found = row::<T>(alloc, tokens)?;
        let Some(items) = found else {
            return Ok(None);
        };
        lists.push(items.as_slice())?;
        if !tokens.take(Mark::Comma) {
            return Ok(closed(tokens, lists));
        }
    }
}

/// What was found, where the bracket that closes a list comes next, which is passed.
fn closed<L: Drop>(tokens: &mut Cursor<'_>, found: L) -> Option<L>
    ensures spelled { IfSome result (λ list. (list ≡ found)
        × (behind CloseSquare (remaining tokens.old) ≡ Some (remaining tokens.new))) }
    ensures whole { whole_of tokens.new ≡ whole_of tokens.old }
{
    if !tokens.take(Mark::CloseSquare) {
        return None;
    }
    Some(found)
}
