//! What a pass comes to.

use kb_book::Book;
use kb_rules::Reducer;

/// What a pass came to.
#[derive(Drop)]
pub enum Passed<R: Reducer> {
    /// Overlaps that are apart were entered.
    Entered(Book<R>),
    /// No overlap is apart: the live rules are confluent, and the book is as it was.
    Confluent(Book<R>),
}
