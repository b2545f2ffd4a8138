//! What holds of every book.

ghost use Rattle.kb_machine.specs.Course.{IsSound};

use kb_book::Book;
use kb_machine::courses_are_sound;
use kb_rules::Reducer;

/// A book is a course, and so all that holds along every course holds of it. It does nothing when it runs.
pub fn book_is_sound<R: Reducer>(book: &Book<R>)
    ensures { IsSound book.now.course.problem book.now.course.state }
{
    courses_are_sound();
    let _journal = book.journal();
}
