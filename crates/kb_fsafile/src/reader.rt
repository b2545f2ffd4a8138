//! From bytes to automata.

ghost use Rattle.std.specs.Prelude.{◌≡◌, ◌≤◌, ◌+◌, ◌*◌, IfOk, IfErr};
ghost use Rattle.kb_record.specs.Grammar.{TextOf};
ghost use Rattle.kb_record.specs.Nesting.{deepest, text_nesting};
ghost use Rattle.kb_record.specs.View.{text_view};
ghost use Rattle.kb_fields.specs.Fields.{fields_view};
ghost use Rattle.kb_fsa.specs.Language.{IsAutomaton, generators};
ghost use Rattle.kb_fsa.specs.Table.{IsTable, HasSymbols};
ghost use Rattle.kb_padding.specs.Misplaced.{IsCleaned};
ghost use Rattle.kb_fsafile.specs.Holds.{AutomatonOf};
ghost use Rattle.kb_fsafile.specs.Checks.{order_of, states_field};
ghost use Rattle.kb_fsafile.specs.Standing.{HasSize};
ghost use Rattle.kb_fsafile.specs.Faults.{IsFirstOf, HasFsaFault};
ghost use Rattle.kb_fsafile.specs.Reading.{IsMemoryOr, IsFirstFrom};
ghost use Rattle.kb_fsafile.specs.Languages.{IsCleanedAs, LanguageOf};
ghost use Rattle.kb_fsafile.specs.RowsRead.{HasTable, HasLetteredTable, TableOf, most_symbols, IsCleaningFault};

use crate::accepting::read_accepting;
use crate::alphabet::{Letters, read_alphabet};
use crate::error::FsaError;
use crate::fields::check_once;
use crate::header::check_is_fsa;
use crate::initial::read_initial;
use crate::reached::{leads_to_most, reached};
use crate::states::count_states;
use crate::table::read_rows;
use kb_fsa::{Alphabet, Fsa, PairSymbols, Table};
use kb_padding::without_misplaced;
use kb_record::{Rec, RecordField, parse};
use kb_word::Names;
use std::alloc::Global;

/// Reads an automaton file: the names of the letters, and the automaton.
///
/// The bytes are a text of a record with the fields that the head of the crate lists. A refusal names the first fault
/// that they have, in the order of the checks, and bytes that say an automaton have none: so bytes are refused exactly
/// where they have a fault, or memory runs out.
pub fn read(alloc: Global, bytes: &[u8]) -> Result<(Names, Fsa), FsaError>
    ensures read { IfOk result (λ found. AutomatonOf bytes.now found.0 found.1) }
    ensures fault { IfErr result (HasFsaFault bytes.now) }
{
    let (letters, read) = table_of(alloc, bytes)?;
    let table = automaton_table(alloc, letters.alphabet, read)?;
    Ok((letters.names, Fsa::new(letters.alphabet, table)))
}

/// Reads an automaton file as [`read`] does, for the language alone: the names of the letters, and an automaton that
/// accepts the same texts. Where texts lead to at most half of the states the others are left out, which saves most of
/// the memory.
pub fn read_language(alloc: Global, bytes: &[u8]) -> Result<(Names, Fsa), FsaError>
    ensures read { IfOk result (λ found. LanguageOf bytes.now found.0 found.1) }
    ensures fault { IfErr result (HasFsaFault bytes.now) }
{
    let (letters, read) = table_of(alloc, bytes)?;
    let table = language_table(alloc, letters.alphabet, read)?;
    Ok((letters.names, Fsa::new(letters.alphabet, table)))
}

/// The letters and the table that the bytes say, as it stands. The tree of the text is let go.
fn table_of(alloc: Global, bytes: &[u8]) -> Result<(Letters, Table), FsaError>
    ensures read { IfOk result (λ found. TableOf bytes.now found.0.names found.0.alphabet found.1) }
    ensures fault { IfErr result (HasFsaFault bytes.now) }
{
    let text = text_of(alloc, bytes)?;
    lettered_table(alloc, text.fields.as_slice())
}

/// The tree of the bytes, which are a text of a record.
fn text_of<'a>(alloc: Global, bytes: &'a [u8]) -> Result<Rec<'a>, FsaError>
    ensures read { IfOk result (λ text. TextOf bytes.now (text_view text)) }
    ensures shallow { IfOk result (λ text. text_nesting (text_view text) ≤ deepest) }
    ensures fault { IfErr result (HasFsaFault bytes.now) }
{
    Ok(parse(alloc, bytes)?)
}

/// The letters and the table that fields say. Field by field, in the order in which a file is refused.
fn lettered_table<'a>(
    alloc: Global,
    fields: &[RecordField<'a>],
) -> Result<(Letters, Table), FsaError>
    ensures read { IfOk result
        (λ found. HasLetteredTable (fields_view fields.now) found.0.names
        found.0.alphabet found.1) }
    ensures fault { IfErr result (IsMemoryOr (IsFirstOf (fields_view fields.now))) }
{
    check_once(alloc, fields)?;
    check_is_fsa(alloc, fields)?;
    let letters = read_alphabet(alloc, fields)?;
    let table = read_table(alloc, fields, letters.size)?;
    Ok((letters, table))
}

/// The table that fields say, as it stands.
fn read_table<'a>(alloc: Global, fields: &[RecordField<'a>], size: u32) -> Result<Table, FsaError>
    requires { HasSize (fields_view fields.now) size }
    ensures read { IfOk result (HasTable (fields_view fields.now) size) }
    ensures fault { IfErr result
        (IsFirstFrom (order_of states_field) (fields_view fields.now)) }
{
    let count = count_states(alloc, fields)?;
    let initial = read_initial(alloc, fields, count)?;
    let accepting = read_accepting(alloc, fields, count)?;
    let rows = read_rows(alloc, fields, size, count)?;
    let answers = accepting.answers(alloc, rows.len())?;
    Ok(Table::new(initial as u32, rows, answers))
}

/// The table of the automaton that a file's table gives.
fn automaton_table(alloc: Global, alphabet: Alphabet, read: Table) -> Result<Table, FsaError>
    requires generators { generators alphabet ≤ 65534 }
    requires table { IsTable read }
    requires symbols { HasSymbols (most_symbols alphabet) read }
    ensures cleaned { IfOk result (IsCleaned alphabet read) }
    ensures automaton { IfOk result
        (λ table. IsAutomaton (record { alphabet = alphabet; table = table })) }
    ensures fault { IfErr result (IsCleaningFault alphabet read) }
{
    match alphabet {
        Alphabet::Plain(_) => Ok(read),
        Alphabet::Pair(n) => Ok(without_misplaced(alloc, n, read)?),
    }
}

/// A table that accepts what that of the automaton does that a file's table gives. Where texts lead to most states it
/// is the whole one, since a state that is explored takes more memory than one that is kept.
fn language_table(alloc: Global, alphabet: Alphabet, read: Table) -> Result<Table, FsaError>
    requires generators { generators alphabet ≤ 65534 }
    requires table { IsTable read }
    requires symbols { HasSymbols (most_symbols alphabet) read }
    ensures same { IfOk result (IsCleanedAs alphabet read) }
    ensures automaton { IfOk result (λ table. IsAutomaton (record { alphabet = alphabet; table = table })) }
    ensures fault { IfErr result (IsMemoryOr (IsCleaningFault alphabet read)) }
{
    if leads_to_most(alloc, &read)? {
        automaton_table(alloc, alphabet, read)
    } else {
        reached_table(alloc, alphabet, read)
    }
}

/// A table that accepts what that of the automaton does that a file's table gives, of the states that texts lead to.
fn reached_table(alloc: Global, alphabet: Alphabet, read: Table) -> Result<Table, FsaError>
    requires generators { generators alphabet ≤ 65534 }
    requires table { IsTable read }
    requires symbols { HasSymbols (most_symbols alphabet) read }
    ensures same { IfOk result (IsCleanedAs alphabet read) }
    ensures automaton { IfOk result
        (λ table. IsAutomaton (record { alphabet = alphabet; table = table })) }
    ensures fault { IfErr result (IsMemoryOr (IsCleaningFault alphabet read)) }
{
    let part = reached(alloc, read, most_symbols(alphabet))?;
    let made = automaton_table(alloc, alphabet, part)?;
    Ok(made)
}

/// The most symbols that the table of a file has, the pair of two paddings perhaps among them.
fn most_symbols(alphabet: Alphabet) -> u32
    requires { generators alphabet ≤ 65534 }
    ensures { result ≡ most_symbols alphabet }
{
    match alphabet {
        Alphabet::Plain(n) => u32::from(n),
        Alphabet::Pair(n) => paddings(n),
    }
}

/// The number of the pair of two paddings, over n letters.
fn paddings(n: u16) -> u32
    requires { n ≤ 65534 }
    ensures { result ≡ (n + 1) * (n + 1) }
{
    PairSymbols { n }.count() + 1
}
