//! Books that tests begin from.

ghost use Rattle.std.specs.Prelude.{IfOk};
ghost use Rattle.kb_share.specs.Versions.{IsPublished};

use kb_book::{Book, Limits};
use kb_index::Index;
use kb_presfile::read;
use kb_share::{Finder, Silent, settle};
use kb_word::Memory;
use std::alloc::Global;

/// The book of a presentation, with no line yet.
pub(crate) fn begun(alloc: Global, text: &[u8]) -> Result<Book<Index>, Memory> {
    let Ok(presentation) = read(alloc, text) else {
        return Err(Memory);
    };
    let limits = Limits::new(1000, 100, 100, 100);
    Ok(Book::new(alloc, &presentation, &limits)?)
}

/// The book of a presentation after its relations are settled and their lines published.
pub(crate) fn published(alloc: Global, text: &str) -> Result<Book<Index>, Memory>
    ensures { IfOk result (λ book. IsPublished book.course.state) }
{
    settled(alloc, begun(alloc, text.as_bytes())?)
}

/// A book after it is settled and its live lines published.
pub(crate) fn settled(alloc: Global, mut book: Book<Index>) -> Result<Book<Index>, Memory>
    ensures { IfOk result (λ book. IsPublished book.course.state) }
{
    settle(alloc, &mut book, &mut Finder::new(alloc), &mut Silent)?;
    book.publish()?;
    Ok(book)
}
