//! Books are settled, and their live lines published.

ghost use Rattle.std.specs.Prelude.{IfOk};
ghost use Rattle.kb_share.specs.Finding.{Knows};
ghost use Rattle.kb_complete.specs.Completing.{Continues};
ghost use Rattle.kb_complete.specs.Working.{StandsAs};

use kb_book::Book;
use kb_draw::Crew;
use kb_index::HasAutomaton;
use kb_io::Gate;
use kb_share::{Finder, Settled, Watch};
use kb_threads::settle_by;
use kb_word::Memory;
use std::alloc::Global;
use std::sync::Wait;
use std::thread::Threads;

/// How a book stands after it was settled.
#[derive(Clone, Copy, Debug, PartialEq, Eq)]
pub(crate) enum Standing {
    /// Nothing is pending, and the live lines are published.
    Published,
    /// It is halted.
    Halted,
}

/// Settles a book by a crew, and publishes its live lines unless it halts: they are to be read much then.
pub(crate) fn settle_and_publish<
    R: HasAutomaton + Send + Sync,
    G: Gate,
    W: Watch,
    T: Threads + Wait + Sync,
>(
    rt: &T,
    alloc: Global,
    book: Book<R>,
    finder: &mut Finder,
    crew: &Crew<'_, G>,
    watch: &mut W,
) -> Result<(Book<R>, Standing), Memory>
    requires { Knows finder.old book.course.state }
    ensures continues { IfOk result (λ done. Continues book.course done.0.course) }
    ensures stands { IfOk result (λ done. StandsAs done.0.course done.1) }
    ensures known { IfOk result (λ done. Knows finder.new done.0.course.state) }
{
    let (mut settled, end) = settle_by(rt, alloc, book, finder, crew, watch)?;
    if let Settled::Halted(_) = end {
        return Ok((settled, Standing::Halted));
    }
    settled.tidy(alloc)?;
    settled.publish()?;
    watch.published(&settled);
    Ok((settled, Standing::Published))
}
