//! Workers sweep the versions of a book that another one settles meanwhile.

ghost use Rattle.std.specs.Prelude.{◌≡◌, ◌≤◌, IfOk, length};

use crate::desk::{Desk, Rows};
use kb_index::HasAutomaton;
use kb_io::{Gate, Point};
use kb_publish::{Edition, EditionReader, Ordered};
use kb_share::{Apart, Sieve, SieveSpace};
use kb_word::Memory;
use std::alloc::Global;
use std::sync::Wait;
use std::thread;
use std::thread::Threads;

/// A worker who sweeps what was published last. It looks at a version without a lock.
#[derive(Drop)]
pub(crate) struct Sweeper<R: HasAutomaton, N: Ordered> {
    worker: u32,
    reader: Option<EditionReader<R, N>>,
    space: SieveSpace,
    row: Vec<Apart>,
    found: Vec<Apart>,
}

impl<R: HasAutomaton, N: Ordered> Sweeper<R, N> {
    /// A worker with this number, who looks through this reader.
    pub(crate) fn new(alloc: Global, worker: u32, reader: EditionReader<R, N>) -> Sweeper<R, N> {
        Sweeper {
            worker,
            reader: Some(reader),
            space: SieveSpace::new(alloc),
            row: Vec::new(alloc),
            found: Vec::new(alloc),
        }
    }

    /// Sweeps rows until there won't be any more.
    pub(crate) fn sweep_to_end<G: Gate, T: Wait>(
        &mut self,
        rt: &T,
        alloc: Global,
        desk: &Desk,
        gate: &G,
    ) {
        for _ in rt.forever() {
            let Some(rows) = desk.next(rt) else {
                return;
            };
            self.sweep(rt, alloc, desk, gate, rows);
        }
    }

    /// Sweeps the rows that nobody has taken yet.
    pub(crate) fn sweep_rest<G: Gate, T: Wait>(
        &mut self,
        rt: &T,
        alloc: Global,
        desk: &Desk,
        gate: &G,
    ) {
        for _ in rt.forever() {
            let Some(rows) = desk.rest(rt) else {
                return;
            };
            self.sweep(rt, alloc, desk, gate, rows);
        }
    }

    /// Sweeps some rows, and brings back what was found in them.
    fn sweep<G: Gate, T: Wait>(
        &mut self,
        rt: &T,
        alloc: Global,
        desk: &Desk,
        gate: &G,
        rows: Rows,
    ) {
        gate.at(self.worker, Point::Sift);
        self.found.clear();
        let swept = self.look(alloc, rows);
        desk.bring(rt, &self.found, swept);
    }

    /// Looks at the version that was published last, and sifts some of its rows. Where the look is refused, nothing is
    /// found in them.
    fn look(&mut self, alloc: Global, rows: Rows) -> Result<(), Memory> {
        let Some(reader) = self.reader.take() else {
            return Ok(());
        };
        match reader.look() {
            Ok(look) => {
                let swept = self.sift(alloc, look.version(), rows);
                self.reader = Some(look.leave());
                swept
            }
            Err(reader) => {
                self.reader = Some(reader);
                Ok(())
            }
        }
    }

    /// Sifts some rows of a version.
    fn sift(&mut self, alloc: Global, edition: &Edition<R, N>, rows: Rows) -> Result<(), Memory> {
        let version = edition.version();
        let end = rows.rows.end.min(version.rules().len());
        let sieve = Sieve::of(alloc, version)?;
        for index in rows.rows.start..end {
            sieve.sift_row(index, rows.from, &mut self.space, &mut self.row)?;
            self.found.extend_from_slice(&self.row)?;
        }
        Ok(())
    }
}

/// A worker for each of these readers, numbered from 1 on.
pub(crate) fn sweepers_of<R: HasAutomaton, N: Ordered>(
    alloc: Global,
    readers: Vec<EditionReader<R, N>>,
) -> Result<Vec<Sweeper<R, N>>, Memory>
    requires { length readers.items ≤ 64 }
    ensures { IfOk result (λ sweepers. length sweepers.items ≡ length readers.items) }
{
    let mut sweepers = Vec::with_capacity(alloc, readers.len())?;
    for reader in readers {
        let worker = sweepers.len() as u32 + 1;
        sweepers.push(Sweeper::new(alloc, worker, reader))?;
    }
    Ok(sweepers)
}

/// Each of these workers sweeps rows in a thread, until there won't be any more. Where there is no memory for threads,
/// nobody does: who settles sweeps what is left.
pub(crate) fn sweep_all<
    R: HasAutomaton + Send + Sync,
    N: Ordered + Send + Sync,
    G: Gate,
    T: Threads + Wait + Sync,
>(rt: &T, alloc: Global, desk: &Desk, gate: &G, sweepers: Vec<Sweeper<R, N>>) {
    let each = |mut sweeper: Sweeper<R, N>| sweeper.sweep_to_end(rt, alloc, desk, gate);
    let _done = thread::map_vec(rt, sweepers, &each);
}
