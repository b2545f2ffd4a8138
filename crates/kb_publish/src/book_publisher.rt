//! What publishes the versions of a book.

ghost use Rattle.std.specs.Prelude.{◌≡◌, ◌≤◌, ◌++◌, ℕ, IfOk, OnOk, length};
ghost use Rattle.kb_machine.specs.States.{State};
ghost use Rattle.kb_publish.specs.Books.{LeadsTo, Shows};
ghost use Rattle.kb_publish.specs.Readers.{seen_through};
ghost use Rattle.kb_publish.specs.Versions.{counted};

use crate::change::{Change, Ordered};
use crate::changes::changes_to;
use crate::edition::Edition;
use crate::{Publisher, RuledGlass, VersionReader};
use kb_book::Book;
use kb_rules::Reducer;
use kb_word::Memory;
use std::alloc::Global;
use std::sync::Wait;

/// A reader of the versions of a book.
pub type EditionReader<R, N> = VersionReader<RuledGlass<Edition<R, N>, Change<N>>>;

/// Publishes the live lines of a book, version by version, while the book goes on. It is not `Drop`: end it by `close`.
pub struct BookPublisher<R: Reducer, N: Ordered> {
    alloc: Global,
    publisher: Publisher<Edition<R, N>, Change<N>>,
    /// The numbers of the lines of the last version.
    numbers: Vec<u32>,
}

impl<R: Reducer, N: Ordered> BookPublisher<R, N> {
    /// Publishes the live lines of a book, and makes so many readers.
    pub fn new<T: Wait>(
        rt: &T,
        alloc: Global,
        book: &Book<R>,
        readers: u32,
    ) -> Result<(BookPublisher<R, N>, Vec<EditionReader<R, N>>), Memory>
        requires order { book.now.course.problem.order ≡ N.order }
        requires readers { (1 ≤ readers) × (readers ≤ 64) }
        ensures shows { IfOk result (λ made.
            Shows made.0 (length book.now.course.state.versions) book.now.course.state) }
        ensures readers { IfOk result (λ made. length made.1.items ≡ readers) }
    {
        let numbers = Vec::from_slice(alloc, book.live())?;
        let first = Edition::of(alloc, book)?;
        let second = Edition::of(alloc, book)?;
        let (publisher, readers) = Publisher::new(rt, alloc, first, second, readers)?;
        let publisher = BookPublisher {
            alloc,
            publisher,
            numbers,
        };
        Ok((publisher, readers))
    }

    /// Publishes the live lines that the book has by now, as the next version: from now on a look shows them. It may
    /// wait for readers that still look at the version before the last. After want of memory nothing is published.
    pub fn advance<T: Wait>(&mut self, rt: &T, book: &Book<R>) -> Result<(), Memory>
        requires { book.now.course.problem.order ≡ N.order }
        ensures { (earlier : State) (number : ℕ) → Shows self.old number earlier
            → LeadsTo earlier book.now.course.state
            → OnOk result (Shows self.new (counted number) book.now.course.state) }
    {
        let rules = book.reducer().list().as_slice();
        let changes = changes_to::<N>(self.alloc, &self.numbers, book.live(), rules)?;
        self.tell_all(changes)?;
        self.publisher.append(Change::Published)?;
        self.publisher.publish(rt)?;
        self.numbers.clear();
        self.numbers.extend_from_slice(book.live())?;
        Ok(())
    }

    /// Tells these changes.
    fn tell_all(&mut self, changes: Vec<Change<N>>) -> Result<(), Memory>
        ensures told { OnOk result (self.new.publisher.pending
            ≡ self.old.publisher.pending ++ changes.items) }
        ensures published { OnOk result (self.new.publisher.published
            ≡ self.old.publisher.published) }
        ensures numbers { self.new.numbers ≡ self.old.numbers }
    {
        for change in changes {
            self.publisher.append(change)?;
        }
        Ok(())
    }

    /// Makes known to a reader all that was published: its next look shows nothing older.
    pub fn tell(&mut self, reader: EditionReader<R, N>) -> EditionReader<R, N>
        ensures told { seen_through result.glass ≡ self.old.publisher.published }
        ensures same { self.new ≡ self.old }
    {
        self.publisher.tell(reader)
    }

    /// Ends publishing: from now on each look is refused. It waits for readers that still look.
    pub fn close<T: Wait>(self, rt: &T) {
        let BookPublisher {
            alloc: _,
            publisher,
            numbers: _numbers,
        } = self;
        publisher.close(rt);
    }
}
