//! What the worker who settles has of the sweeps beside it.

ghost use Rattle.std.specs.Prelude.{◌≡◌};

use crate::desk::Desk;
use crate::sweeper::Sweeper;
use kb_book::Book;
use kb_index::HasAutomaton;
use kb_io::Gate;
use kb_publish::{BookPublisher, Ordered};
use kb_share::Waiting;
use kb_word::Memory;
use std::alloc::Global;
use std::sync::Wait;

/// The desk where rows are handed out, what publishes, and the worker as a sweeper.
#[derive(Drop)]
pub(crate) struct Side<'s, R: HasAutomaton, N: Ordered, G: Gate> {
    pub alloc: Global,
    pub desk: &'s Desk,
    pub gate: &'s G,
    pub publisher: &'s mut BookPublisher<R, N>,
    pub sweeper: Sweeper<R, N>,
}

impl<'s, R: HasAutomaton, N: Ordered, G: Gate> Side<'s, R, N, G> {
    /// Hands out the rows of the version that was published last, so many. Lines from this number on are new.
    pub(crate) fn begin<T: Wait>(&self, rt: &T, rows: usize, from: u64) {
        self.desk.begin(rt, rows, from);
    }

    /// Sweeps what nobody has taken yet, and waits until all is swept. What was found waits from then on, and so many
    /// lines, which are all of the version, are new no more.
    pub(crate) fn finish<T: Wait>(
        &mut self,
        rt: &T,
        waiting: &mut Waiting,
        lines: usize,
    ) -> Result<(), Memory> {
        self.sweeper
            .sweep_rest(rt, self.alloc, self.desk, self.gate);
        let found = self.desk.all_found(rt, self.alloc)?;
        waiting.add_all(&found)?;
        waiting.thin(self.alloc)?;
        waiting.note_sifted(lines);
        Ok(())
    }

    /// Publishes the live lines that the book has by now.
    pub(crate) fn publish<T: Wait>(&mut self, rt: &T, book: &Book<R>) -> Result<(), Memory>
        requires { book.now.course.problem.order ≡ N.order }
    {
        self.publisher.advance(rt, book)
    }

    /// No rows will be handed out any more.
    pub(crate) fn close<T: Wait>(self, rt: &T) {
        self.desk.close(rt);
    }
}
