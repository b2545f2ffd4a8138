//! Lines are made until nothing is pending.

ghost use Rattle.std.specs.Prelude.{◌≡◌, ◌≢◌, ◌↔◌, ◌<◌, [], IsTrue, IfOk, IfNone, IfSome, None, OnOk};
ghost use Rattle.kb_machine.specs.Course.{Course, Takes};
ghost use Rattle.kb_machine.specs.declared.event.Event.TheVariants.{Made};
ghost use Rattle.kb_share.specs.Finding.{Knows};
ghost use Rattle.kb_share.specs.Interreduced.{StaysReduced};
ghost use Rattle.kb_share.specs.Settling.{Settles, SettleSays};
ghost use Rattle.kb_share.specs.Work.{EndsAt, GoesOnBy, work};

use crate::balancing::balance;
use crate::finding::Finder;
use crate::settled::Settled;
use crate::simplifying::simplify;
use crate::sound::book_is_sound;
use crate::watch::Watch;
use kb_book::{Book, Make};
use kb_rules::Reducer;
use kb_word::Memory;
use std::alloc::Global;

/// Makes lines until nothing is pending or a limit is reached. After each line the other lines are
/// taken away whose left sides have its left side as a factor, and those are replaced whose right
/// sides it reduces, and where the finder was told to, the line is balanced. The finder knows the book's
/// live lines, or is new, and knows them afterwards. After want of memory the events that were made stand.
pub fn settle<R: Reducer, W: Watch>(
    alloc: Global,
    book: &mut Book<R>,
    finder: &mut Finder,
    watch: &mut W,
) -> Result<Settled, Memory>
    requires known { Knows finder.old book.old.course.state }
    ensures settles { Settles book.old.course book.new.course }
    ensures says { IfOk result (SettleSays book.old.course book.new.course) }
    ensures known { OnOk result (Knows finder.new book.new.course.state) }
    ensures reduced { OnOk result (StaysReduced book.old.course book.new.course) }
{
    book_is_sound(book);
    if is_idle(book) {
        return Ok(Settled::Nothing);
    }
    make_all(alloc, book, finder, watch)
}

/// Whether nothing is pending.
fn is_idle<R: Reducer>(book: &Book<R>) -> bool
    ensures { IsTrue result ↔ (book.now.course.state.pending ≡ []) }
{
    book.pending().front().is_none()
}

/// Makes lines until nothing is pending or a limit is reached, where something is pending.
fn make_all<R: Reducer, W: Watch>(
    alloc: Global,
    book: &mut Book<R>,
    finder: &mut Finder,
    watch: &mut W,
) -> Result<Settled, Memory>
    requires pending { book.old.course.state.pending ≢ [] }
    requires known { Knows finder.old book.old.course.state }
    ensures settles { Settles book.old.course book.new.course }
    ensures says { IfOk result (SettleSays book.old.course book.new.course) }
    ensures known { OnOk result (Knows finder.new book.new.course.state) }
    ensures reduced { OnOk result (StaysReduced book.old.course book.new.course) }
{
    'making: loop {
        if let Some(end) = make_next(alloc, book, finder, watch)? {
            return Ok(end);
        }
    }
}

/// Settles a book in part: until nothing is pending, a limit is reached, or it has so many lines. The answer is how it is
/// settled, if it is.
pub fn settle_part<R: Reducer, W: Watch>(
    alloc: Global,
    book: &mut Book<R>,
    finder: &mut Finder,
    watch: &mut W,
    lines: usize,
) -> Result<Option<Settled>, Memory>
    requires known { Knows finder.old book.old.course.state }
    ensures settles { Settles book.old.course book.new.course }
    ensures ends { IfOk result (λ end. IfSome end (EndsAt book.new.course)) }
    ensures known { OnOk result (Knows finder.new book.new.course.state) }
    ensures reduced { OnOk result (StaysReduced book.old.course book.new.course) }
{
    'making: while book.lines().len() < lines {
        if let Some(end) = make_next(alloc, book, finder, watch)? {
            return Ok(Some(end));
        }
    }
    Ok(None)
}

/// Looks at the first pending pair, and answers how the book is settled, if it is.
fn make_next<R: Reducer, W: Watch>(
    alloc: Global,
    book: &mut Book<R>,
    finder: &mut Finder,
    watch: &mut W,
) -> Result<Option<Settled>, Memory>
    requires known { Knows finder.old book.old.course.state }
    ensures settles { Settles book.old.course book.new.course }
    ensures falls { IfOk result (λ end. IfNone end (work book.new.course < work book.old.course)) }
    ensures ends { IfOk result (λ end. IfSome end (EndsAt book.new.course)) }
    ensures known { OnOk result (Knows finder.new book.new.course.state) }
    ensures reduced { OnOk result (StaysReduced book.old.course book.new.course) }
{
    book_is_sound(book);
    match book.make(alloc)? {
        Make::Made(k) => Ok(line_made(alloc, book, k, finder, watch)?),
        Make::Dropped => Ok(None),
        Make::Idle => Ok(Some(Settled::Done)),
        Make::Halted(halt) => Ok(Some(Settled::Halted(halt))),
    }
}

/// Goes on after line k was made. Where the live rules were interreduced before it was made, they
/// are so afterwards: left sides always, and right sides unless the log is full. At most two overlaps become
/// pending, if the finder was told to balance, and there is no other work than before but these.
pub fn line_made<R: Reducer, W: Watch>(
    alloc: Global,
    book: &mut Book<R>,
    k: u32,
    finder: &mut Finder,
    watch: &mut W,
) -> Result<Option<Settled>, Memory>
    requires known { Knows finder.old book.old.course.state }
    ensures goes_on { GoesOnBy 2 book.old.course book.new.course }
    ensures none { IfOk result (λ end. end ≡ None) }
    ensures known { OnOk result (Knows finder.new book.new.course.state) }
    ensures reduced { (start : Course) → Takes (Made k) start book.old.course
        → OnOk result (StaysReduced start book.new.course) }
{
    watch.line_made(book);
    simplify(alloc, book, k, finder)?;
    balance(book, k, &mut finder.inverses)?;
    Ok(None)
}
