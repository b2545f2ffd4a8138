//! What a new line does to the others.

ghost use Rattle.std.specs.Prelude.{◌≡◌, None, OnOk};
ghost use Rattle.kb_machine.specs.Course.{Course, Takes};
ghost use Rattle.kb_machine.specs.declared.event.Event.TheVariants.{Made};
ghost use Rattle.kb_share.specs.Finding.{Knows};
ghost use Rattle.kb_share.specs.Interreduced.{StaysReduced};
ghost use Rattle.kb_share.specs.Simplifying.{Ages, NoneHas, NoRightHasOrFull, OnlyTheseHave, Thins};
ghost use Rattle.kb_share.specs.Work.{GoesOn};
ghost use Rattle.kb_share.specs.declared.finding.Side.TheVariants as side;

use crate::finding::Finder;
use crate::sound::book_is_sound;
use kb_book::Book;
use kb_rules::Reducer;
use kb_word::Memory;
use std::alloc::Global;

/// Takes away each other line whose left side has that of line k as a factor, and replaces each
/// line whose right side line k reduces; lines that come of that are not looked at again.
pub(crate) fn simplify<R: Reducer>(
    alloc: Global,
    book: &mut Book<R>,
    k: u32,
    finder: &mut Finder,
) -> Result<(), Memory>
    requires { Knows finder.old book.old.course.state }
    ensures goes_on { GoesOn book.old.course book.new.course }
    ensures known { OnOk result (Knows finder.new book.new.course.state) }
    ensures reduced { (start : Course) → Takes (Made k) start book.old.course
        → OnOk result (StaysReduced start book.new.course) }
{
    finder.find_longer(book, k)?;
    kill_each(book, finder.found())?;
    finder.find_reducible(book, k)?;
    shorten_each(alloc, book, finder.found())?;
    book_is_sound(book);
    Ok(())
}

/// Takes away those of these lines whose left sides have another live one as a factor.
fn kill_each<R: Reducer>(book: &mut Book<R>, lines: &[u32]) -> Result<(), Memory>
    ensures goes_on { GoesOn book.old.course book.new.course }
    ensures thins { Thins book.old.course book.new.course }
    ensures lefts { OnlyTheseHave side.Left book.old.course.state lines.now
        → OnOk result (NoneHas side.Left book.new.course.state) }
{
    for line in lines {
        book_is_sound(book);
        book.kill(*line)?;
    }
    Ok(())
}

/// Replaces those of these lines whose right sides other live rules reduce, as long as lines can be made:
/// where the book isn't halted, until the log is full.
fn shorten_each<R: Reducer>(alloc: Global, book: &mut Book<R>, lines: &[u32]) -> Result<(), Memory>
    ensures goes_on { GoesOn book.old.course book.new.course }
    ensures ages { Ages book.old.course.state book.new.course.state }
    ensures lefts { NoneHas side.Left book.old.course.state
        → NoneHas side.Left book.new.course.state }
    ensures rights { book.old.course.state.halt ≡ None
        → OnlyTheseHave side.Right book.old.course.state lines.now
        → OnOk result (NoRightHasOrFull book.new.course) }
{
    for line in lines {
        book_is_sound(book);
        book.shorten(alloc, *line)?;
    }
    Ok(())
}
