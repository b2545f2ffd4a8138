//! Growths of a book.

ghost use Rattle.std.specs.Prelude.{IfOk};
ghost use Rattle.kb_share.specs.Finding.{Knows};
ghost use Rattle.kb_complete.specs.Completing.{GrowSays, KnowsGrown};
ghost use Rattle.kb_auto.specs.Trials.{IsTwofold};

use kb_book::Book;
use kb_complete::{Grown, grow};
use kb_draw::Crew;
use kb_index::HasAutomaton;
use kb_io::Gate;
use kb_share::{Finder, Watch, book_is_sound};
use kb_word::Memory;
use std::alloc::Global;
use std::sync::Wait;
use std::thread::Threads;

/// Goes on until the log has at least twice as many lines as the book given has, or the completion is at its end.
pub(crate) fn grow_twofold<
    R: HasAutomaton + Send + Sync,
    G: Gate,
    W: Watch,
    T: Threads + Wait + Sync,
>(
    rt: &T,
    alloc: Global,
    mut book: Book<R>,
    finder: &mut Finder,
    crew: &Crew<'_, G>,
    watch: &mut W,
) -> Result<Grown<R>, Memory>
    requires { Knows finder.old book.course.state }
    ensures says { IfOk result (GrowSays book.course) }
    ensures known { IfOk result (KnowsGrown finder.new) }
    ensures twofold { IfOk result (IsTwofold book.course) }
{
    let given = book.lines().len();
    'growing: loop {
        match grow(rt, alloc, book, finder, crew, watch)? {
            Grown::More(next) => book = next,
            Grown::Confluent(rules, ended) => return Ok(Grown::Confluent(rules, ended)),
            Grown::Halted(ended) => return Ok(Grown::Halted(ended)),
        }
        book_is_sound(&book);
        if book.lines().len() / 2 >= given {
            return Ok(Grown::More(book));
        }
    }
}
