//! Overlaps are entered into a book.

ghost use Rattle.std.specs.Prelude.{◌≡◌, All, OnOk};
ghost use Rattle.kb_machine.specs.Course.{Takes};
ghost use Rattle.kb_share.specs.Passes.{IsOverlapOfLines, entered, entry_of};

use crate::found::Found;
use kb_book::{Book, EnterFault};
use kb_rules::Reducer;
use kb_word::Memory;

/// Enters these overlaps for a worker, one after another.
pub fn enter_all<R: Reducer>(book: &mut Book<R>, worker: u8, found: &[Found]) -> Result<(), Memory>
    requires { All (IsOverlapOfLines book.old.course.state) found.now }
    ensures { OnOk result (book.new.course ≡ entered worker book.old.course found.now) }
{
    for one in found {
        enter(book, worker, one)?;
    }
    Ok(())
}

/// Enters an overlap, so that nothing but memory can be wanting.
fn enter<R: Reducer>(book: &mut Book<R>, worker: u8, one: &Found) -> Result<(), Memory>
    requires { IsOverlapOfLines book.old.course.state one.now }
    ensures { OnOk result (Takes (entry_of worker one.now) book.old.course book.new.course) }
{
    match book.enter(worker, one.first, one.second, one.place) {
        Ok(()) => Ok(()),
        Err(EnterFault::NotOverlap) => unreachable!(),
        Err(EnterFault::Memory) => Err(Memory),
    }
}
