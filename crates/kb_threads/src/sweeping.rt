//! Workers sift the rows of a version, which they draw.

ghost use Rattle.std.specs.Prelude.{◌≡◌, ◌≤◌, ◌^◌, [], All, IfOk, IsTrue, length};
ghost use Rattle.kb_threads.specs.Sweeps.{RowsAreJoined};

use kb_draw::{Crew, Work, share_out};
use kb_index::HasAutomaton;
use kb_io::{Gate, Point};
use kb_share::{Apart, Sieve, SieveSpace, Version, Waiting};
use kb_word::Memory;
use std::alloc::Global;
use std::sync::Wait;
use std::thread::Threads;

/// So many rows of a version. Of each the prime overlaps are sifted of which one line has the number `from` or a later
/// one.
#[derive(Drop)]
struct Rows<'b, R: HasAutomaton, G: Gate> {
    sieve: Sieve<'b, R>,
    rows: u64,
    from: u64,
    gate: &'b G,
    ghost all: { rows ≡ length sieve.rules },
    ghost few: { rows ≤ 2 ^ 62 },
}

/// What a worker found in the rows that it took.
#[derive(Drop)]
struct Sifted {
    worker: u32,
    space: SieveSpace,
    row: Vec<Apart>,
    found: Vec<Apart>,
}

/// A part is a row.
impl<'b, R: HasAutomaton, G: Gate> Work for Rows<'b, R, G> {
    ghost use Rattle.std.specs.Prelude.{◌≡◌, []};
    ghost use Rattle.kb_share.specs.Primes.{PrimesOfRowAreJoined};

    type Share = Sifted;

    ghost parts = { λ rows. rows.rows };

    ghost sound = { λ rows share. Unit {0} };

    ghost done = { λ rows share row. rows.from ≡ 0 → share.found.items ≡ []
        → PrimesOfRowAreJoined rows.sieve.rules row };

    fn parts(&self) -> u64 {
        self.rows
    }

    fn begin(&self, alloc: Global, worker: u32) -> Result<Sifted, Memory> {
        Ok(Sifted {
            worker,
            space: SieveSpace::new(alloc),
            row: Vec::new(alloc),
            found: Vec::new(alloc),
        })
    }

    fn take(&self, row: u64, share: &mut Sifted) -> Result<(), Memory> {
        self.gate.at(share.worker, Point::Sift);
        let Sifted {
            space,
            row: of_row,
            found,
            ..
        } = share;
        self.sieve.sift_row(row as usize, self.from, space, of_row)?;
        found.extend_from_slice(of_row)?;
        Ok(())
    }
}

/// Workers sift the prime overlaps of a version of which one line has the number `from` or a later one. Those that are
/// apart wait from then on. Whether nothing is apart.
pub(crate) fn sweep<R: HasAutomaton + Sync, G: Gate, T: Threads + Wait + Sync>(
    rt: &T,
    alloc: Global,
    version: Version<'_, R>,
    from: u64,
    waiting: &mut Waiting,
    crew: &Crew<'_, G>,
) -> Result<bool, Memory>
    ensures { IfOk result (λ none. from ≡ 0 → IsTrue none → RowsAreJoined version.entry.rules) }
{
    let rows = version.numbers().len() as u64;
    let sieve = Sieve::of(alloc, version)?;
    let gate = crew.gate();
    let rows = Rows {
        sieve,
        rows,
        from,
        gate,
    };
    let shares = share_out(rt, alloc, &rows, crew)?;
    add_found(&shares, waiting)?;
    waiting.thin(alloc)?;
    Ok(nothing_found(&shares))
}

/// What the workers found waits from now on.
fn add_found(shares: &[Sifted], waiting: &mut Waiting) -> Result<(), Memory> {
    for share in shares {
        waiting.add_all(&share.found)?;
    }
    Ok(())
}

/// Whether no worker found anything.
fn nothing_found(shares: &[Sifted]) -> bool
    ensures { IsTrue result → All (λ share. share.found.items ≡ []) shares.now }
{
    shares.iter().all(|share| share.found.is_empty())
}
