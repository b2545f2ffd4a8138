//! Rounds of completion.

ghost use Rattle.std.specs.Prelude.{IfOk, length};
ghost use Rattle.kb_share.specs.Finding.{Knows};
ghost use Rattle.kb_complete.specs.Completing.{GrowSays, KnowsGrown};
ghost use Rattle.kb_complete.specs.Working.{IsSettled, AdvanceSays, KnowsRound};

use crate::answers::Grown;
use crate::ending::{completed, grow_by_first};
use crate::publishing::{Standing, settle_and_publish};
use kb_book::Book;
use kb_draw::Crew;
use kb_index::HasAutomaton;
use kb_io::Gate;
use kb_rules::Reducer;
use kb_share::{Finder, Watch, book_is_sound};
use kb_threads::{Passed, make_pass};
use kb_word::Memory;
use std::alloc::Global;
use std::sync::Wait;
use std::thread::Threads;

/// Whether a round goes on.
#[derive(Drop)]
pub(crate) enum Round<R: Reducer> {
    /// It has come to this.
    Over(Grown<R>),
    /// There is no new line yet.
    Open(Book<R>),
}

/// Goes on until there is a line more than the book given has, or the completion is at its end. The
/// finder knows the book's live lines, or is new, and knows those of the answer's book afterwards: one
/// finder serves a book as long as it lives. After want of memory the book is gone.
pub fn grow<R: HasAutomaton + Send + Sync, G: Gate, W: Watch, T: Threads + Wait + Sync>(
    rt: &T,
    alloc: Global,
    book: Book<R>,
    finder: &mut Finder,
    crew: &Crew<'_, G>,
    watch: &mut W,
) -> Result<Grown<R>, Memory>
    requires { Knows finder.old book.course.state }
    ensures says { IfOk result (GrowSays book.course) }
    ensures known { IfOk result (KnowsGrown finder.new) }
{
    match advance(rt, alloc, book, finder, crew, watch)? {
        Round::Over(grown) => Ok(grown),
        Round::Open(settled) => Ok(look_for_more(rt, alloc, settled, finder, crew, watch)?),
    }
}

/// Makes a pass over a settled book. The completion is at its end where nothing is apart; else a line is made of the
/// first overlap that was entered, or the book halts.
fn look_for_more<R: HasAutomaton + Send + Sync, G: Gate, W: Watch, T: Threads + Wait + Sync>(
    rt: &T,
    alloc: Global,
    book: Book<R>,
    finder: &mut Finder,
    crew: &Crew<'_, G>,
    watch: &mut W,
) -> Result<Grown<R>, Memory>
    requires settled { IsSettled book.course }
    requires known { Knows finder.old book.course.state }
    ensures says { IfOk result (GrowSays book.course) }
    ensures known { IfOk result (KnowsGrown finder.new) }
{
    book_is_sound(&book);
    match make_pass(rt, alloc, book, &mut finder.waiting, crew)? {
        Passed::Confluent(same) => {
            // No line comes any more: the finder's memory goes to the reduced system.
            *finder = Finder::new(alloc);
            Ok(completed(alloc, same)?)
        }
        Passed::Entered(passed) => Ok(grow_by_first(rt, alloc, passed, finder, crew, watch)?),
    }
}

/// Settles the book and publishes its live lines. The round is over where there are more lines than
/// were given, or at a halt.
fn advance<R: HasAutomaton + Send + Sync, G: Gate, W: Watch, T: Threads + Wait + Sync>(
    rt: &T,
    alloc: Global,
    book: Book<R>,
    finder: &mut Finder,
    crew: &Crew<'_, G>,
    watch: &mut W,
) -> Result<Round<R>, Memory>
    requires { Knows finder.old book.course.state }
    ensures says { IfOk result (AdvanceSays (length book.course.state.lines) book.course) }
    ensures known { IfOk result (KnowsRound finder.new) }
{
    let given = book.lines().len();
    let (settled, standing) = settle_and_publish(rt, alloc, book, finder, crew, watch)?;
    if let Standing::Halted = standing {
        return Ok(Round::Over(Grown::Halted(settled)));
    }
    if settled.lines().len() > given {
        return Ok(Round::Over(Grown::More(settled)));
    }
    Ok(Round::Open(settled))
}
