//! Passes by as many workers as a command asks for.

ghost use Rattle.std.specs.Prelude.{IfOk};
ghost use Rattle.kb_share.specs.Versions.{IsPublished};
ghost use Rattle.kb_threads.specs.Passes.{PassSays};

use crate::alone::pass_by_one;
use crate::passed::Passed;
use crate::threads::Threads;
use kb_book::Book;
use kb_draw::Crew;
use kb_index::HasAutomaton;
use kb_io::Gate;
use kb_share::Waiting;
use kb_word::Memory;
use std::alloc::Global;
use std::sync::Wait;
use std::thread;

/// As many live lines are worth threads. A pass over fewer takes less time than threads take to
/// begin and to end.
const MANY_LINES: usize = 32;

/// Makes a pass over a book whose last version has its live lines. One worker enters all overlaps that are apart, in
/// their order (`OneByOne`); more of them enter the shortest (`Threads`), also where few lines are live and one does it
/// alone. What these found and didn't enter waits for the passes that follow.
pub fn make_pass<R: HasAutomaton + Send + Sync, G: Gate, T: thread::Threads + Wait + Sync>(
    rt: &T,
    alloc: Global,
    book: Book<R>,
    waiting: &mut Waiting,
    crew: &Crew<'_, G>,
) -> Result<Passed<R>, Memory>
    requires { IsPublished book.course.state }
    ensures { IfOk result (PassSays book.course) }
{
    if crew.count() == 1 {
        return pass_by_one(alloc, book);
    }
    if book.live().len() < MANY_LINES {
        return Threads::of(crew.first()).pass(rt, alloc, book, waiting);
    }
    Threads::of(crew.copy()).pass(rt, alloc, book, waiting)
}
