//! A book is settled by a crew: one worker makes lines, while the others sweep what was published last.

ghost use Rattle.std.specs.Prelude.{◌≡◌, ◌≤◌, ◌↔◌, [], IfOk, IsTrue, length};
ghost use Rattle.kb_share.specs.Finding.{Knows};
ghost use Rattle.kb_threads.specs.Settling.{EndsFrom, GoesOnBy, SettlesAs};

use crate::beside::Side;
use crate::desk::Desk;
use crate::sweeper::{sweep_all, sweepers_of};
use kb_book::Book;
use kb_draw::Crew;
use kb_index::HasAutomaton;
use kb_io::Gate;
use kb_publish::{BookPublisher, EditionReader, Ordered};
use kb_rules::Reducer;
use kb_share::{Finder, Settled, Watch, settle, settle_part};
use kb_word::Memory;
use std::alloc::Global;
use std::marker::Brand;
use std::sync::Wait;
use std::thread::Threads;
use std::{mem, thread};

/// A part has so many lines at least. Fewer are made sooner than the live ones are copied and threads begin.
const FEWEST: usize = 256;

/// A book that is being settled, the finder that knows it, and who watches.
#[derive(Drop)]
pub(crate) struct Settling<'w, R: Reducer, W: Watch> {
    pub alloc: Global,
    pub book: Book<R>,
    pub finder: Finder,
    pub watch: &'w mut W,
}

impl<'w, R: Reducer, W: Watch> Settling<'w, R, W> {
    /// Settles one part more, or what is left. The answer is how the book is settled, if it is. A part has as many lines
    /// as are live: to sweep it costs about as much as to walk along all of them.
    fn part(&mut self) -> Result<Option<Settled>, Memory>
        requires { Knows self.old.finder self.old.book.course.state }
        ensures { IfOk result (GoesOnBy self.old self.new) }
    {
        let part = self.book.live().len().max(FEWEST);
        let lines = self.book.lines().len().saturating_add(part);
        settle_part(
            self.alloc,
            &mut self.book,
            &mut self.finder,
            self.watch,
            lines,
        )
    }
}

/// Settles a book: makes lines until nothing is pending or a limit is reached. Where several workers are to make many
/// lines, one of them makes them, and the live ones are published part by part; the others sift the overlaps of what was
/// published last while the next part is settled. A part is published only when the one before it is swept, so that
/// what is found depends neither on the number of workers from two on nor on how they interleave. What is apart waits
/// in the finder.
pub fn settle_by<R: HasAutomaton + Send + Sync, G: Gate, W: Watch, T: Threads + Wait + Sync>(
    rt: &T,
    alloc: Global,
    book: Book<R>,
    finder: &mut Finder,
    crew: &Crew<'_, G>,
    watch: &mut W,
) -> Result<(Book<R>, Settled), Memory>
    requires { Knows finder.old book.course.state }
    ensures settles { IfOk result (λ done. SettlesAs book.course done.0.course done.1) }
    ensures known { IfOk result (λ done. Knows finder.new done.0.course.state) }
{
    if crew.count() == 1 {
        return settle_alone(alloc, book, finder, watch);
    }
    finder.inverses.balance(true);
    if is_idle(&book) {
        return settle_alone(alloc, book, finder, watch);
    }
    let finder_of_book = mem::replace(finder, Finder::new(alloc));
    let settling = Settling {
        alloc,
        book,
        finder: finder_of_book,
        watch,
    };
    let (settling, settled) = settle_in_parts(rt, settling, crew)?;
    *finder = settling.finder;
    Ok((settling.book, settled))
}

/// Settles a book by one worker.
fn settle_alone<R: Reducer, W: Watch>(
    alloc: Global,
    mut book: Book<R>,
    finder: &mut Finder,
    watch: &mut W,
) -> Result<(Book<R>, Settled), Memory>
    requires { Knows finder.old book.course.state }
    ensures settles { IfOk result (λ done. SettlesAs book.course done.0.course done.1) }
    ensures known { IfOk result (λ done. Knows finder.new done.0.course.state) }
{
    let settled = settle(alloc, &mut book, finder, watch)?;
    Ok((book, settled))
}

/// Whether nothing is pending.
fn is_idle<R: Reducer>(book: &Book<R>) -> bool
    ensures { IsTrue result ↔ (book.now.course.state.pending ≡ []) }
{
    book.pending().front().is_none()
}

/// Settles a book by one worker alone, if a part is enough, or else while others sweep.
fn settle_in_parts<'w, R: HasAutomaton + Send + Sync, G: Gate, W: Watch, T: Threads + Wait + Sync>(
    rt: &T,
    mut settling: Settling<'w, R, W>,
    crew: &Crew<'_, G>,
) -> Result<(Settling<'w, R, W>, Settled), Memory>
    requires { Knows settling.finder settling.book.course.state }
    ensures { IfOk result (EndsFrom settling.entry.book.course) }
{
    match settling.part()? {
        Some(settled) => Ok((settling, settled)),
        None => settle_beside::<Brand, R, G, W, T>(rt, settling, crew),
    }
}

/// Settles a book in parts, while other workers sweep what was published last.
fn settle_beside<
    'w,
    N: Ordered + Send + Sync,
    R: HasAutomaton + Send + Sync,
    G: Gate,
    W: Watch,
    T: Threads + Wait + Sync,
>(
    rt: &T,
    settling: Settling<'w, R, W>,
    crew: &Crew<'_, G>,
) -> Result<(Settling<'w, R, W>, Settled), Memory>
    requires order { settling.book.course.problem.order ≡ N.order }
    requires known { Knows settling.finder settling.book.course.state }
    ensures { IfOk result (EndsFrom settling.entry.book.course) }
{
    let (mut publisher, readers) = BookPublisher::<R, N>::new(
        rt,
        settling.alloc,
        &settling.book,
        crew.count(),
    )?;
    let done = settle_and_sweep(rt, settling, crew, &mut publisher, readers);
    publisher.close(rt);
    done
}

/// Settles a book by one worker, while the others look through these readers at what it publishes, and sweep that.
fn settle_and_sweep<
    'w,
    N: Ordered + Send + Sync,
    R: HasAutomaton + Send + Sync,
    G: Gate,
    W: Watch,
    T: Threads + Wait + Sync,
>(
    rt: &T,
    settling: Settling<'w, R, W>,
    crew: &Crew<'_, G>,
    publisher: &mut BookPublisher<R, N>,
    readers: Vec<EditionReader<R, N>>,
) -> Result<(Settling<'w, R, W>, Settled), Memory>
    requires readers { (1 ≤ length readers.items) × (length readers.items ≤ 64) }
    requires order { settling.book.course.problem.order ≡ N.order }
    requires known { Knows settling.finder settling.book.course.state }
    ensures { IfOk result (EndsFrom settling.entry.book.course) }
{
    let alloc = settling.alloc;
    let gate = crew.gate();
    let mut sweepers = sweepers_of(alloc, readers)?;
    let Some(sweeper) = sweepers.pop() else {
        unreachable!()
    };
    let desk = Desk::new(alloc);
    let side = Side {
        alloc,
        desk: &desk,
        gate,
        publisher,
        sweeper,
    };
    let (_, done) = thread::join(
        rt,
        || sweep_all(rt, alloc, &desk, gate, sweepers),
        || -> Result<(Settling<'_, R, W>, Settled), Memory>
            requires order { settling.book.course.problem.order ≡ N.order }
            requires known { Knows settling.finder settling.book.course.state }
            ensures { IfOk result (EndsFrom settling.entry.book.course) }
        { settle_to_end(rt, settling, side) },
    );
    done
}

/// Settles a book in parts, and tells the workers beside when it is settled.
fn settle_to_end<'w, N: Ordered, R: HasAutomaton, G: Gate, W: Watch, T: Wait>(
    rt: &T,
    settling: Settling<'w, R, W>,
    mut side: Side<'_, R, N, G>,
) -> Result<(Settling<'w, R, W>, Settled), Memory>
    requires order { settling.book.course.problem.order ≡ N.order }
    requires known { Knows settling.finder settling.book.course.state }
    ensures { IfOk result (EndsFrom settling.entry.book.course) }
{
    let done = settle_parts(rt, settling, &mut side);
    side.close(rt);
    done
}

/// Settles a book part by part. Each part is published when the one before it is swept.
fn settle_parts<'w, N: Ordered, R: HasAutomaton, G: Gate, W: Watch, T: Wait>(
    rt: &T,
    mut settling: Settling<'w, R, W>,
    side: &mut Side<'_, R, N, G>,
) -> Result<(Settling<'w, R, W>, Settled), Memory>
    requires order { settling.book.course.problem.order ≡ N.order }
    requires known { Knows settling.finder settling.book.course.state }
    ensures { IfOk result (EndsFrom settling.entry.book.course) }
{
    for _ in rt.forever() {
        let swept = settling.book.lines().len();
        side.begin(
            rt,
            settling.book.live().len(),
            settling.finder.waiting.from(),
        );
        let end = settling.part()?;
        side.finish(rt, &mut settling.finder.waiting, swept)?;
        if let Some(settled) = end {
            return Ok((settling, settled));
        }
        side.publish(rt, &settling.book)?;
    }
    unreachable!()
}
