//! The rows of a table.

ghost use Rattle.std.specs.Prelude.{◌≡◌, ◌<◌, ◌≤◌, ◌⊎◌, ◌++◌, ℕ, pos, [], ◌∷◌, length, All, Some, IfOk, IfErr, OnOk, IsSome, IfSome, IfNone};
ghost use Rattle.std.specs.BTreeMap.{get};
ghost use Rattle.std.specs.Ordering.{nat_cmp};
ghost use Rattle.kb_record.specs.Tree.{list_value};
ghost use Rattle.kb_record.specs.View.{value_view, row_place, entries_place, written_place};
ghost use Rattle.kb_record.specs.Listed.{place_view};
ghost use Rattle.kb_fsa.specs.Table.{Ascends};
ghost use Rattle.kb_fsafile.specs.Kinds.{list_of_numbers, IsNumberOf, IsTargetOf};
ghost use Rattle.kb_fsafile.specs.RowsRead.{moves_among, IsRowAt, AreRowTargets, HasEntries, IsSparseRow};
ghost use Rattle.kb_fsafile.specs.RowsRead.{IsFirstOfRow, IsFirstOfTargets, IsFirstOfEntries};
ghost use Rattle.kb_fsafile.specs.declared.format.Format.TheVariants.{Dense, Sparse};
ghost use Rattle.kb_fsafile.specs.declared.error.Field.TheVariants.{Transitions};
ghost use Rattle.kb_fsafile.specs.declared.error.FsaError.TheVariants.{WrongKind};

use crate::error::{Field, FsaError};
use crate::format::Format;
use crate::values::{entries_listed, number_within, target_within};
use kb_fields::numbers_listed;
use kb_record::{Place, PlaceText, Value};
use kb_word::Memory;
use std::alloc::Global;
use std::collections::BTreeMap;

/// The moves of a state: symbols, ascending, each with its target.
type Moves = Vec<(u32, u32)>;

/// The row at a place of a table over so many symbols and of so many states.
pub fn read_row(
    alloc: Global,
    place: Place<'_, '_>,
    format: Format,
    size: u32,
    count: u32,
) -> Result<Moves, FsaError>
    ensures read { IfOk result (λ row. IsRowAt size count format (place_view place.entry) row.items) }
    ensures fault { IfErr result (IsFirstOfRow format size count (place_view place.entry)) }
{
    match format {
        Format::Dense => read_dense_row(alloc, place, size, count),
        Format::Sparse => read_sparse_row(alloc, place, size, count),
    }
}

/// The refusal of a place that holds no row of the table's format.
fn no_row() -> FsaError
    ensures { result ≡ WrongKind Transitions }
{
    FsaError::WrongKind {
        field: Field::Transitions,
    }
}

/// The row at a place that lists a target for each symbol.
fn read_dense_row(
    alloc: Global,
    place: Place<'_, '_>,
    size: u32,
    count: u32,
) -> Result<Moves, FsaError>
    ensures read { IfOk result (λ row. IsRowAt size count Dense (place_view place.entry) row.items) }
    ensures fault { IfErr result (IsFirstOfRow Dense size count (place_view place.entry)) }
{
    match place {
        Place::Numbers(numbers) => whole_row(alloc, numbers, size, count),
        Place::Entries(entries) => row_without_targets(alloc, entries, size, count),
        Place::Text(text) => written_row(alloc, text, size, count),
        _ => Err(no_row()),
    }
}

/// The row at a place, as it is written, that lists a target for each symbol.
fn written_row(alloc: Global, text: PlaceText<'_>, size: u32, count: u32) -> Result<Moves, FsaError>
    ensures read { IfOk result (λ row. IsRowAt size count Dense (written_place text.entry) row.items) }
    ensures fault { IfErr result (IsFirstOfRow Dense size count (written_place text.entry)) }
{
    let value = text.value(alloc)?;
    match value {
        Some(value) => listed_row(alloc, &value, size, count),
        None => Err(no_row()),
    }
}

/// The row of a value that lists a target for each symbol.
fn listed_row<'a>(
    alloc: Global,
    value: &Value<'a>,
    size: u32,
    count: u32,
) -> Result<Moves, FsaError>
    ensures read { IfOk result (λ row. IsRowAt size count Dense (Some (value_view value.now)) row.items) }
    ensures fault { IfErr result (IsFirstOfRow Dense size count (Some (value_view value.now))) }
{
    let Some(numbers) = numbers_listed(alloc, value)? else {
        return Err(no_row());
    };
    whole_row(alloc, numbers.as_slice(), size, count)
}

/// The row of a list of entries, which is a list of targets only where it is empty.
fn row_without_targets(
    alloc: Global,
    entries: &[(i64, i64)],
    size: u32,
    count: u32,
) -> Result<Moves, FsaError>
    ensures read { IfOk result (λ row. IsRowAt size count Dense (entries_place entries.now) row.items) }
    ensures fault { IfErr result (IsFirstOfRow Dense size count (entries_place entries.now)) }
{
    if !entries.is_empty() {
        return Err(no_row());
    }
    whole_row(alloc, &[], size, count)
}

/// The row with these targets, one for each symbol.
fn whole_row(alloc: Global, numbers: &[i64], size: u32, count: u32) -> Result<Moves, FsaError>
    ensures read { IfOk result (λ row.
        IsRowAt size count Dense (Some (list_value (list_of_numbers numbers.now))) row.items) }
    ensures fault { IfErr result (IsFirstOfTargets size count numbers.now) }
{
    if numbers.len() != size as usize {
        return Err(FsaError::StatesWrong);
    }
    dense_row(alloc, numbers, size, count)
}

/// The row with these targets for the symbols in order; 0 is none.
fn dense_row(alloc: Global, numbers: &[i64], size: u32, count: u32) -> Result<Moves, FsaError>
    requires { length numbers.now ≡ size }
    ensures read { IfOk result (λ row. AreRowTargets count numbers.now row.items) }
    ensures fault { IfErr result (IsFirstOfTargets size count numbers.now) }
{
    let room = numbers.iter().filter(|number| **number != 0).count();
    let mut moves = Vec::with_capacity(alloc, room)?;
    let mut symbol = 0;
    for number in numbers {
        symbol += 1;
        let Some(target) = target_within(*number, u64::from(count)) else {
            return Err(FsaError::TargetOutOfRange);
        };
        keep(&mut moves, symbol, target as u32)?;
    }
    Ok(moves)
}

/// Adds a move where the target is a state.
fn keep(moves: &mut Vec<(u32, u32)>, symbol: u32, target: u32) -> Result<(), Memory>
    ensures { OnOk result
        (moves.new.items ≡ moves.old.items ++ moves_among ((symbol, target) ∷ [])) }
{
    if target != 0 {
        moves.push((symbol, target))?;
    }
    Ok(())
}

/// The row at a place that lists symbols, each with its target.
fn read_sparse_row(
    alloc: Global,
    place: Place<'_, '_>,
    size: u32,
    count: u32,
) -> Result<Moves, FsaError>
    ensures read { IfOk result (λ row. IsRowAt size count Sparse (place_view place.entry) row.items) }
    ensures fault { IfErr result (IsFirstOfRow Sparse size count (place_view place.entry)) }
{
    match place {
        Place::Entries(entries) => sparse_row(alloc, entries, size, count),
        Place::Numbers(numbers) => row_without_entries(alloc, numbers, size, count),
        Place::Text(text) => written_sparse_row(alloc, text, size, count),
        _ => Err(no_row()),
    }
}

/// The row at a place, as it is written, that lists symbols, each with its target.
fn written_sparse_row(
    alloc: Global,
    text: PlaceText<'_>,
    size: u32,
    count: u32,
) -> Result<Moves, FsaError>
    ensures read { IfOk result (λ row. IsRowAt size count Sparse (written_place text.entry) row.items) }
    ensures fault { IfErr result (IsFirstOfRow Sparse size count (written_place text.entry)) }
{
    let value = text.value(alloc)?;
    match value {
        Some(value) => listed_sparse_row(alloc, &value, size, count),
        None => Err(no_row()),
    }
}

/// The row of a value that lists symbols, each with its target.
fn listed_sparse_row<'a>(
    alloc: Global,
    value: &Value<'a>,
    size: u32,
    count: u32,
) -> Result<Moves, FsaError>
    ensures read { IfOk result (λ row. IsRowAt size count Sparse (Some (value_view value.now)) row.items) }
    ensures fault { IfErr result (IsFirstOfRow Sparse size count (Some (value_view value.now))) }
{
    let Some(entries) = entries_listed(alloc, value)? else {
        return Err(no_row());
    };
    sparse_row(alloc, entries.as_slice(), size, count)
}

/// The row of a list of numbers, which is a list of entries only where it is empty.
fn row_without_entries(
    alloc: Global,
    numbers: &[i64],
    size: u32,
    count: u32,
) -> Result<Moves, FsaError>
    ensures read { IfOk result (λ row. IsRowAt size count Sparse (row_place numbers.now) row.items) }
    ensures fault { IfErr result (IsFirstOfRow Sparse size count (row_place numbers.now)) }
{
    if !numbers.is_empty() {
        return Err(no_row());
    }
    sparse_row(alloc, &[], size, count)
}

/// The row with these entries.
fn sparse_row(alloc: Global, pairs: &[(i64, i64)], size: u32, count: u32) -> Result<Moves, FsaError>
    ensures read { IfOk result (λ row. IsSparseRow size count pairs.now row.items) }
    ensures fault { IfErr result (IsFirstOfEntries size count pairs.now) }
{
    match ascending_row(alloc, pairs, size, count)? {
        Some(row) => Ok(row),
        None => sorted_row(alloc, pairs, size, count),
    }
}

/// The row with these entries where their symbols ascend; `None` where they don't.
fn ascending_row(
    alloc: Global,
    pairs: &[(i64, i64)],
    size: u32,
    count: u32,
) -> Result<Option<Moves>, FsaError>
    ensures read { IfOk result
        (λ found. IfSome found (λ row. IsSparseRow size count pairs.now row.items)) }
    ensures fault { IfErr result (IsFirstOfEntries size count pairs.now) }
{
    let mut moves = Vec::with_capacity(alloc, pairs.len())?;
    let mut last = 0;
    for pair in pairs {
        let Some((symbol, target)) = entry_within(pair, size, count) else {
            return Err(FsaError::TargetOutOfRange);
        };
        if symbol <= last {
            return Ok(None);
        }
        keep(&mut moves, symbol, target)?;
        last = symbol;
    }
    Ok(Some(moves))
}

/// The entry that the pair of numbers is, of so many symbols and states.
fn entry_within(pair: &(i64, i64), size: u32, count: u32) -> Option<(u32, u32)>
    ensures is { IfSome result (λ entry. pair.now ≡ (pos entry.0, pos entry.1)) }
    ensures symbol { IfSome result (λ entry. (0 < entry.0) × (entry.0 ≤ size)) }
    ensures target { IfSome result (λ entry. entry.1 ≤ count) }
    ensures none { IfNone result
        ((¬ IsNumberOf size pair.now.0) ⊎ (¬ IsTargetOf count pair.now.1)) }
{
    let symbol = number_within(pair.0, u64::from(size))?;
    let target = target_within(pair.1, u64::from(count))?;
    Some((symbol as u32, target as u32))
}

/// The row with these entries, whatever the order of their symbols is.
fn sorted_row(alloc: Global, pairs: &[(i64, i64)], size: u32, count: u32) -> Result<Moves, FsaError>
    ensures read { IfOk result (λ row. IsSparseRow size count pairs.now row.items) }
    ensures fault { IfErr result (IsFirstOfEntries size count pairs.now) }
{
    let entries = by_symbol(alloc, pairs, size, count)?;
    Ok(row_of(alloc, &entries)?)
}

/// The entries by their symbols.
fn by_symbol(
    alloc: Global,
    pairs: &[(i64, i64)],
    size: u32,
    count: u32,
) -> Result<BTreeMap<u32, u32>, FsaError>
    ensures read { IfOk result (HasEntries size count pairs.now) }
    ensures fault { IfErr result (IsFirstOfEntries size count pairs.now) }
{
    let mut entries = BTreeMap::new(alloc);
    for pair in pairs {
        let Some((symbol, target)) = entry_within(pair, size, count) else {
            return Err(FsaError::TargetOutOfRange);
        };
        if entries.insert(symbol, target)?.is_some() {
            return Err(FsaError::NotDeterministic);
        }
    }
    Ok(entries)
}

/// The row of the entries that are moves.
fn row_of(alloc: Global, entries: &BTreeMap<u32, u32>) -> Result<Moves, Memory>
    requires { (symbol : ℕ) → IsSome (get nat_cmp entries.now symbol) → 0 < symbol }
    ensures moves { IfOk result (λ row. row.items ≡ moves_among entries.now.entries) }
    ensures ordered { OnOk result (Ascends entries.now.entries) }
    ensures found { OnOk result
        (All (λ entry. get nat_cmp entries.now entry.0 ≡ Some entry.1) entries.now.entries) }
{
    let mut moves = Vec::with_capacity(alloc, entries.len())?;
    for (symbol, target) in entries {
        keep(&mut moves, *symbol, *target)?;
    }
    Ok(moves)
}
