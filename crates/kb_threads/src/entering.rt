//! Workers enter a batch of overlaps.

ghost use Rattle.std.specs.Prelude.{◌≡◌, ◌≤◌, IfOk, length};
ghost use Rattle.kb_threads.specs.Shared.{AreOverlaps, EntersBatch};

use crate::pass::Pass;
use crate::shared::Shared;
use crate::sharing::Sharing;
use kb_book::Book;
use kb_io::{Gate, Point};
use kb_rules::Reducer;
use kb_share::Found;
use kb_word::Memory;
use std::alloc::Global;
use std::sync::Wait;
use std::sync::ledger::Blank;
use std::thread;
use std::thread::Threads;

/// So many workers enter a batch of overlaps into a book, which is shared under a name.
pub(crate) fn enter_shared<
    S: Sharing + Send + Sync,
    R: Reducer + Send + Sync,
    G: Gate,
    T: Threads + Wait + Sync,
>(
    rt: &T,
    alloc: Global,
    gate: &G,
    blank: Blank,
    book: Book<R>,
    batch: Vec<Found>,
    workers: u8,
) -> Result<Book<R>, Memory>
    requires name { blank.name ≡ S.name }
    requires parts { (blank.parts ≡ S.parts) × (S.parts ≡ workers) × (1 ≤ workers) }
    requires given { book.course ≡ S.given }
    requires batch { batch.items ≡ S.batch }
    requires overlaps { AreOverlaps S.given S.batch }
    ensures { IfOk result (λ after. EntersBatch S.given S.batch after.course) }
{
    let turns = batch.len();
    let Ok((shared, passes)) = Shared::<R, S>::new(alloc, book, batch, blank, workers) else {
        return Err(Memory);
    };
    let done = all_enter(rt, alloc, &shared, gate, passes, turns)?;
    shared.finish(done)
}

/// Each worker enters overlaps in a thread, as long as some are left. The passes are given back.
fn all_enter<S: Sharing + Send + Sync, R: Reducer + Send + Sync, G: Gate, T: Threads + Wait + Sync>(
    rt: &T,
    alloc: Global,
    shared: &Shared<R, S>,
    gate: &G,
    passes: Vec<Pass<S>>,
    turns: usize,
) -> Result<Vec<Pass<S>>, Memory>
    ensures { IfOk result (λ done. length done.items ≡ length passes.items) }
{
    let each = |pass: Pass<S>| -> Result<Pass<S>, Memory>
        ensures { result ≡ result }
    { enter_to_end(rt, shared, gate, pass, turns) };
    let ended = thread::map_vec(rt, passes, &each)?;
    each_done(alloc, ended)
}

/// Enters overlaps as long as some are left, at most so many.
fn enter_to_end<R: Reducer, S: Sharing, G: Gate, T: Wait>(
    rt: &T,
    shared: &Shared<R, S>,
    gate: &G,
    mut pass: Pass<S>,
    turns: usize,
) -> Result<Pass<S>, Memory> {
    for _ in 0..turns {
        gate.at(u32::from(pass.worker()), Point::Enter);
        if !shared.enter(rt, &mut pass)? {
            break;
        }
    }
    Ok(pass)
}

/// The passes of workers, where all of them came to an end.
fn each_done<S: Sharing>(
    alloc: Global,
    ended: Vec<Result<Pass<S>, Memory>>,
) -> Result<Vec<Pass<S>>, Memory>
    ensures { IfOk result (λ passes. length passes.items ≡ length ended.items) }
{
    let mut passes = Vec::with_capacity(alloc, ended.len())?;
    for pass in ended {
        passes.push(pass?)?;
    }
    Ok(passes)
}
