//! The identity on an acceptor.

ghost use Rattle.std.specs.Prelude.{◌≡◌, ℕ, map, All, IfOk};
ghost use Rattle.kb_fsa.specs.Table.{IsRow};
ghost use Rattle.kb_fsa.specs.Language.{IsAutomaton};
ghost use Rattle.kb_fsa.specs.declared.alphabet.Alphabet.TheVariants.{Plain};
ghost use Rattle.kb_compose.specs.Along.{AreLetters, identity_on, twice};

use kb_fsa::{Alphabet, Fsa, PairSymbols, Rows, Table};
use kb_word::Memory;
use std::alloc::Global;

/// The automaton of the pairs of an accepted word with itself, with the acceptor's states.
pub(crate) fn identity(alloc: Global, acceptor: &Fsa) -> Result<Fsa, Memory>
    requires { (n : ℕ) × (acceptor.now.alphabet ≡ Plain n) }
    ensures identity { IfOk result (λ identity. identity ≡ identity_on acceptor.now) }
    ensures automaton { IsAutomaton acceptor.now }
{
    let n = acceptor.alphabet().generators();
    let table = acceptor.table();
    let rows = rows_of_pairs(alloc, PairSymbols { n }, table.rows())?;
    let accepting = Vec::from_slice(alloc, table.accepting())?;
    Ok(Fsa::new(
        Alphabet::Pair(n),
        Table::new(table.initial(), rows, accepting),
    ))
}

/// The rows by pairs of the same letter twice.
fn rows_of_pairs(alloc: Global, symbols: PairSymbols, rows: &Rows) -> Result<Rows, Memory>
    requires { All (AreLetters symbols.n) rows.now }
    ensures { IfOk result (λ pairs. pairs ≡ map (map (twice symbols.n)) rows.now) }
{
    let mut pairs = Rows::new(alloc)?;
    for place in 0..rows.len() {
        let row = row_of_pairs(alloc, symbols, rows.get(place))?;
        pairs.push(row.as_slice())?;
    }
    Ok(pairs)
}

/// The row by pairs of the same letter twice.
fn row_of_pairs(
    alloc: Global,
    symbols: PairSymbols,
    row: &[(u32, u32)],
) -> Result<Vec<(u32, u32)>, Memory>
    requires letters { AreLetters symbols.n row.now }
    requires row { IsRow row.now }
    ensures pairs { IfOk result (λ pairs. pairs.items ≡ map (twice symbols.n) row.now) }
    ensures row { IfOk result (λ pairs. IsRow pairs.items) }
{
    let mut pairs = Vec::with_capacity(alloc, row.len())?;
    for (letter, target) in row {
        pairs.push((symbols.symbol(*letter, *letter), *target))?;
    }
    Ok(pairs)
}
