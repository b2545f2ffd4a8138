//! The pool of workers that are threads.

ghost use Rattle.std.specs.Prelude.{◌≡◌, ◌≢◌, [], All, IfOk};
ghost use Rattle.kb_share.specs.Passes.{EntersApart, IsApart};
ghost use Rattle.kb_share.specs.Versions.{IsPublished, version_of};
ghost use Rattle.kb_threads.specs.Passes.{PassSays};

use crate::alone::pass_by_one;
use crate::entering::enter_shared;
use crate::passed::Passed;
use crate::sweeping::sweep;
use kb_book::Book;
use kb_draw::Crew;
use kb_index::HasAutomaton;
use kb_io::Gate;
use kb_rules::Reducer;
use kb_share::{Found, Version, Waiting, book_is_sound, next_batch, prime_overlaps_decide};
use kb_word::Memory;
use std::alloc::Global;
use std::marker::{Brand, Model};
use std::sync::Wait;
use std::sync::ledger::Blank;
use std::thread;

/// Workers that are threads.
#[derive(Drop)]
pub struct Threads<'g, G: Gate> {
    crew: Crew<'g, G>,
}

/// The pool is how many workers it has.
impl<'g, G: Gate> Model for Threads<'g, G> {
    ghost use Rattle.std.specs.Prelude.{ℕ};

    ghost Value = { ℕ };

    ghost view = { λ threads. threads.crew };
}

impl<'g, G: Gate> Threads<'g, G> {
    /// The workers of this crew.
    pub fn of(crew: Crew<'g, G>) -> Threads<'g, G>
        ensures { result ≡ crew.entry }
    {
        Threads { crew }
    }

    /// Makes a pass over a book whose last version has its live lines. Prime overlaps of which one line is new are
    /// sifted first, and those that are apart wait. Of all that wait the shortest are entered: all that are apart, or
    /// at least 16. Where none is, all prime overlaps are sifted.
    pub fn pass<R: HasAutomaton + Send + Sync, T: thread::Threads + Wait + Sync>(
        &self,
        rt: &T,
        alloc: Global,
        book: Book<R>,
        waiting: &mut Waiting,
    ) -> Result<Passed<R>, Memory>
        requires { IsPublished book.course.state }
        ensures { IfOk result (PassSays book.course) }
    {
        let from = waiting.from();
        sweep(rt, alloc, Version::of(&book), from, waiting, &self.crew)?;
        waiting.note_sifted(book.lines().len());
        let batch = next_batch(alloc, &Version::of(&book), waiting)?;
        if batch.is_empty() {
            return self.pass_over_all(rt, alloc, book, waiting);
        }
        Ok(Passed::Entered(self.enter(rt, alloc, book, batch)?))
    }

    /// Makes a pass in which all prime overlaps are sifted.
    fn pass_over_all<R: HasAutomaton + Send + Sync, T: thread::Threads + Wait + Sync>(
        &self,
        rt: &T,
        alloc: Global,
        book: Book<R>,
        waiting: &mut Waiting,
    ) -> Result<Passed<R>, Memory>
        requires { IsPublished book.course.state }
        ensures { IfOk result (PassSays book.course) }
    {
        if sweep(rt, alloc, Version::of(&book), 0, waiting, &self.crew)? {
            prime_overlaps_decide(&book);
            return Ok(Passed::Confluent(book));
        }
        let batch = next_batch(alloc, &Version::of(&book), waiting)?;
        if batch.is_empty() {
            return pass_by_one(alloc, book);
        }
        Ok(Passed::Entered(self.enter(rt, alloc, book, batch)?))
    }

    /// Enters a batch of overlaps that are apart into a book.
    fn enter<R: Reducer + Send + Sync, T: thread::Threads + Wait + Sync>(
        &self,
        rt: &T,
        alloc: Global,
        book: Book<R>,
        batch: Vec<Found>,
    ) -> Result<Book<R>, Memory>
        requires some { batch.items ≢ [] }
        requires apart { All (IsApart (version_of book.course.state)) batch.items }
        ensures { IfOk result (λ after. EntersApart book.course after.course) }
    {
        book_is_sound(&book);
        let workers = self.crew.count();
        let blank = Blank::new(workers as u64);
        let gate = self.crew.gate();
        enter_shared::<Brand, R, G, T>(rt, alloc, gate, blank, book, batch, workers as u8)
    }
}
