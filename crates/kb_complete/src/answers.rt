//! What completion answers.

use kb_book::Book;
use kb_rules::{Reducer, Rules};

/// What a round of completion came to.
#[derive(Drop)]
pub enum Grown<R: Reducer> {
    /// There is at least one line more, and nothing is pending.
    More(Book<R>),
    /// The completion is at its end: the reduced complete system.
    Confluent(Rules, Book<R>),
    /// A limit is reached, and the book is halted.
    Halted(Book<R>),
}

/// What a completion came to.
#[derive(Drop)]
pub enum Outcome<R: Reducer> {
    /// The reduced complete system.
    Confluent(Rules, Book<R>),
    /// A limit is reached, and the book is halted.
    Halted(Book<R>),
}
