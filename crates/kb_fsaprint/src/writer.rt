//! From automata to bytes.

ghost use Rattle.std.specs.Prelude.{◌≡◌, ◌≢◌, ◌≤◌, ◌<◌, ◌^◌, ◌-◌, ◌++◌, [], IfOk, OnOk, length, pos};
ghost use Rattle.kb_record.specs.Tree.{record_value, list_value};
ghost use Rattle.kb_layout.specs.Layout.{indent, line_of, text_of_value};
ghost use Rattle.kb_fsa.specs.Table.{IsRow};
ghost use Rattle.kb_fsa.specs.Language.{generators};
ghost use Rattle.kb_fsa.specs.Canonical.{IsCanonical};
ghost use Rattle.kb_fsa.specs.declared.alphabet.Alphabet.TheVariants.{Pair};
ghost use Rattle.kb_fsaprint.specs.Printed as printed;
ghost use Rattle.kb_fsaprint.specs.Printed.{text_of_automaton, alphabet_fields, names_fields, table_fields, numbers_value, accepting_from, accepting_value, targets_from, list_of_moves, row_places, rows_places};
ghost use Rattle.kb_fsaprint.specs.Writing.{number_text, move_text};

use crate::format::RowFormat;
use kb_fsa::{Alphabet, Fsa, Rows, Table, split_at_symbol};
use kb_layout::{print_indent, print_names, print_number};
use kb_word::{Memory, Names};
use std::alloc::Global;

/// The text of a canonical automaton over letters with these names.
pub fn write(alloc: Global, names: &Names, fsa: &Fsa) -> Result<Vec<u8>, Memory>
    requires canonical { IsCanonical fsa.now.table }
    requires names { length names.now ≡ generators fsa.now.alphabet }
    ensures { IfOk result (λ bytes. bytes.items ≡ text_of_automaton names.now fsa.now) }
{
    let mut out = Vec::new(alloc);
    write_automaton(names, fsa, &mut out)?;
    Ok(out)
}

/// Appends the text of an automaton that starts in state 1.
fn write_automaton(names: &Names, fsa: &Fsa, out: &mut Vec<u8>) -> Result<(), Memory>
    requires { fsa.now.table.initial ≡ 1 }
    ensures { OnOk result (out.new.items ≡ out.old.items ++ text_of_automaton names.now fsa.now) }
{
    let alphabet = fsa.alphabet();
    out.extend_from_slice(b"_FSA := rec(\n  isFSA := true,\n  alphabet := ")?;
    write_alphabet(alphabet, names, out)?;
    out.extend_from_slice(b",\n  states := rec(\n    type := \"simple\",\n    size := ")?;
    write_number(fsa.len(), out)?;
    out.extend_from_slice(
        b"\n  ),\n  flags := [\"DFA\",\"minimized\",\"BFS\",\"accessible\",\"trim\"],\n  initial := [1],\n  accepting := ",
    )?;
    write_accepting(fsa.table().accepting(), out)?;
    out.extend_from_slice(b",\n  table := ")?;
    write_table(fsa.table(), RowFormat::of_alphabet(alphabet), out)?;
    out.extend_from_slice(b"\n);\n")?;
    Ok(())
}

/// Appends the record of the alphabet.
fn write_alphabet(alphabet: Alphabet, names: &Names, out: &mut Vec<u8>) -> Result<(), Memory>
    requires { generators alphabet ≤ 65534 }
    ensures { OnOk result
        (out.new.items
        ≡ out.old.items
        ++ text_of_value 1 (record_value (alphabet_fields alphabet names.now))) }
{
    match alphabet {
        Alphabet::Plain(_) => write_names(1, names, out),
        Alphabet::Pair(n) => write_pairs(n, names, out),
    }
}

/// Appends the record of the alphabet of pairs over n letters.
fn write_pairs(n: u16, names: &Names, out: &mut Vec<u8>) -> Result<(), Memory>
    requires { n ≤ 65534 }
    ensures { OnOk result
        (out.new.items
        ≡ out.old.items
        ++ text_of_value 1 (record_value (alphabet_fields (Pair n) names.now))) }
{
    out.extend_from_slice(b"rec(\n    type := \"product\",\n    size := ")?;
    write_number(Alphabet::Pair(n).symbols(), out)?;
    out.extend_from_slice(b",\n    arity := 2,\n    padding := _,\n    base := ")?;
    write_names(2, names, out)?;
    out.extend_from_slice(b"\n  )")?;
    Ok(())
}

/// Appends the record of the letters' names at a level.
fn write_names(level: usize, names: &Names, out: &mut Vec<u8>) -> Result<(), Memory>
    requires { level ≤ 2 }
    ensures { OnOk result
        (out.new.items
        ≡ out.old.items ++ text_of_value level (record_value (names_fields names.now))) }
{
    out.extend_from_slice(b"rec(\n")?;
    write_line(level + 1, b"type := \"identifiers\",\n", out)?;
    write_line(level + 1, b"size := ", out)?;
    write_number(names.len() as u32, out)?;
    out.extend_from_slice(b",\n")?;
    write_line(level + 1, b"format := \"dense\",\n", out)?;
    write_line(level + 1, b"names := ", out)?;
    print_names(names, out)?;
    out.extend_from_slice(b"\n")?;
    write_line(level, b")", out)
}

/// Appends a text behind the blanks of a level.
fn write_line(level: usize, text: &[u8], out: &mut Vec<u8>) -> Result<(), Memory>
    ensures { OnOk result (out.new.items ≡ out.old.items ++ (indent level ++ text.now)) }
{
    print_indent(level, out)?;
    out.extend_from_slice(text)?;
    Ok(())
}

/// Appends the digits of a number.
fn write_number(number: u32, out: &mut Vec<u8>) -> Result<(), Memory>
    ensures { OnOk result (out.new.items ≡ out.old.items ++ number_text number) }
{
    print_number(i64::from(number), out)
}

/// Appends the range of all states, where there are at least two and each accepts, and else the list of those that do.
fn write_accepting(accepting: &[bool], out: &mut Vec<u8>) -> Result<(), Memory>
    requires { length accepting.now < 2 ^ 32 }
    ensures { OnOk result
        (out.new.items ≡ out.old.items ++ text_of_value 1 (accepting_value accepting.now)) }
{
    if accepting.iter().all(|accepts| *accepts) && accepting.len() >= 2 {
        out.extend_from_slice(b"[1..")?;
        write_number(accepting.len() as u32, out)?;
        out.push(b']')?;
        return Ok(());
    }
    write_accepting_list(accepting, out)
}

/// Appends the list of the states that accept.
fn write_accepting_list(accepting: &[bool], out: &mut Vec<u8>) -> Result<(), Memory>
    requires { length accepting.now < 2 ^ 32 }
    ensures { OnOk result
        (out.new.items
        ≡ out.old.items ++ line_of (numbers_value (accepting_from 1 accepting.now))) }
{
    out.push(b'[')?;
    let mut before: &[u8] = b"";
    let mut state = 0u32;
    for accepts in accepting {
        state += 1;
        if *accepts {
            out.extend_from_slice(before)?;
            write_number(state, out)?;
            before = b",";
        }
    }
    out.push(b']')?;
    Ok(())
}

/// Appends the record of the table, with its rows in a format.
fn write_table(table: &Table, format: RowFormat, out: &mut Vec<u8>) -> Result<(), Memory>
    requires { table.now.rows ≢ [] }
    ensures { OnOk result
        (out.new.items
        ≡ out.old.items
        ++ text_of_value 1 (record_value (table_fields format table.now.rows))) }
{
    out.extend_from_slice(b"rec(\n    format := \"")?;
    out.extend_from_slice(format.name().as_bytes())?;
    out.extend_from_slice(b"\",\n    numTransitions := ")?;
    write_move_count(table.rows(), out)?;
    out.extend_from_slice(b",\n    transitions := ")?;
    write_rows(table.rows(), format, out)?;
    out.extend_from_slice(b"\n  )")?;
    Ok(())
}

/// Appends the number of moves.
fn write_move_count(rows: &Rows, out: &mut Vec<u8>) -> Result<(), Memory>
    ensures { OnOk result
        (out.new.items ≡ out.old.items ++ number_text (printed.move_count rows.now)) }
{
    print_number(move_count(rows)?, out)
}

/// How many moves there are. No memory has room for more of them than an `i64` counts.
fn move_count(rows: &Rows) -> Result<i64, Memory>
    ensures { IfOk result (λ count. count ≡ pos (printed.move_count rows.now)) }
{
    let mut count = 0usize;
    for place in 0..rows.len() {
        count = count.checked_add(rows.get(place).len()).ok_or(Memory)?;
    }
    i64::try_from(count).map_err(|_| Memory)
}

/// Appends the rows, each on a line of its own.
fn write_rows(rows: &Rows, format: RowFormat, out: &mut Vec<u8>) -> Result<(), Memory>
    requires { rows.now ≢ [] }
    ensures { OnOk result
        (out.new.items
        ≡ out.old.items ++ text_of_value 2 (list_value (rows_places format rows.now))) }
{
    out.push(b'[')?;
    let mut before: &[u8] = b"\n";
    for place in 0..rows.len() {
        out.extend_from_slice(before)?;
        print_indent(3, out)?;
        write_row(rows.get(place), format, out)?;
        before = b",\n";
    }
    out.extend_from_slice(b"\n    ]")?;
    Ok(())
}

/// Appends the row.
fn write_row(row: &[(u32, u32)], format: RowFormat, out: &mut Vec<u8>) -> Result<(), Memory>
    requires { IsRow row.now }
    ensures { OnOk result
        (out.new.items ≡ out.old.items ++ line_of (list_value (row_places format row.now))) }
{
    match format {
        RowFormat::Dense(symbols) => write_targets(row, symbols, out),
        RowFormat::Sparse => write_moves(row, out),
    }
}

/// Appends a target for each of so many symbols, 0 where there is no move.
fn write_targets(row: &[(u32, u32)], symbols: u32, out: &mut Vec<u8>) -> Result<(), Memory>
    requires { IsRow row.now }
    ensures { OnOk result
        (out.new.items
        ≡ out.old.items ++ line_of (numbers_value (targets_from row.now 1 symbols))) }
{
    out.push(b'[')?;
    let mut before: &[u8] = b"";
    let mut left = row;
    for place in 0..symbols {
        out.extend_from_slice(before)?;
        let (target, later) = split_at_symbol(left, place + 1);
        write_number(target, out)?;
        before = b",";
        left = later;
    }
    out.push(b']')?;
    Ok(())
}

/// Appends the moves, each with its symbol and its target.
fn write_moves(moves: &[(u32, u32)], out: &mut Vec<u8>) -> Result<(), Memory>
    ensures { OnOk result
        (out.new.items ≡ out.old.items ++ line_of (list_value (list_of_moves moves.now))) }
{
    out.push(b'[')?;
    let mut before: &[u8] = b"";
    for entry in moves {
        out.extend_from_slice(before)?;
        write_move(entry.0, entry.1, out)?;
        before = b",";
    }
    out.push(b']')?;
    Ok(())
}

/// Appends the symbol and the target of a move.
fn write_move(symbol: u32, target: u32, out: &mut Vec<u8>) -> Result<(), Memory>
    ensures { OnOk result (out.new.items ≡ out.old.items ++ move_text (symbol, target)) }
{
    out.push(b'[')?;
    write_number(symbol, out)?;
    out.push(b',')?;
    write_number(target, out)?;
    out.push(b']')?;
    Ok(())
}
