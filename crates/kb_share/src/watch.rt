//! Those who watch a completion.

use kb_book::Book;
use kb_rules::Reducer;

/// Sees a completion's progress.
pub trait Watch {
    /// A line was made of the first pending pair: it is the last line of the book.
    fn line_made<R: Reducer>(&mut self, book: &Book<R>);

    /// The live lines were published: they are the last version of the book.
    fn published<R: Reducer>(&mut self, book: &Book<R>);
}

/// Watches nothing.
#[derive(Clone, Copy, Debug, PartialEq, Eq)]
pub struct Silent;

impl Watch for Silent {
    fn line_made<R: Reducer>(&mut self, _book: &Book<R>) {}

    fn published<R: Reducer>(&mut self, _book: &Book<R>) {}
}
