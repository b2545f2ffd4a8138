//! Passes by one worker.

ghost use Rattle.std.specs.Prelude.{IfOk};
ghost use Rattle.kb_share.specs.Versions.{IsPublished};
ghost use Rattle.kb_threads.specs.Passes.{PassSays};

use crate::passed::Passed;
use kb_book::Book;
use kb_rules::Reducer;
use kb_share::OneByOne;
use kb_word::Memory;
use std::alloc::Global;

/// Makes a pass by one worker, who enters all overlaps that are apart.
pub(crate) fn pass_by_one<R: Reducer>(alloc: Global, mut book: Book<R>) -> Result<Passed<R>, Memory>
    requires { IsPublished book.course.state }
    ensures { IfOk result (PassSays book.course) }
{
    if OneByOne.enter_apart(alloc, &mut book)? == 0 {
        Ok(Passed::Confluent(book))
    } else {
        Ok(Passed::Entered(book))
    }
}
