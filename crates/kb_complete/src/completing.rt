//! Whole completions.

ghost use Rattle.std.specs.Prelude.{◌≡◌, IfOk};
ghost use Rattle.kb_word.specs.Presentations.{parts_of};
ghost use Rattle.kb_book.specs.Problems.{problem_of};
ghost use Rattle.kb_share.specs.Finding.{Knows};
ghost use Rattle.kb_complete.specs.Completing.{AreReduced, CompleteSays};

use crate::answers::{Grown, Outcome};
use crate::growing::grow;
use kb_book::{Book, Limits};
use kb_draw::Crew;
use kb_index::HasAutomaton;
use kb_io::Gate;
use kb_share::{Finder, Silent, Watch, book_is_sound};
use kb_word::{Memory, Presentation};
use std::alloc::Global;
use std::sync::Wait;
use std::thread::Threads;

/// Completes a presentation within limits.
pub fn complete<R: HasAutomaton + Send + Sync, G: Gate, T: Threads + Wait + Sync>(
    rt: &T,
    alloc: Global,
    presentation: &Presentation,
    limits: &Limits,
    crew: &Crew<'_, G>,
) -> Result<Outcome<R>, Memory>
    ensures { IfOk result (CompleteSays
        (problem_of (parts_of presentation.now) limits.now.rules limits.now.len)) }
{
    complete_watched(rt, alloc, presentation, limits, crew, &mut Silent)
}

/// Completes a presentation within limits, and lets somebody watch.
pub fn complete_watched<R: HasAutomaton + Send + Sync, G: Gate, W: Watch, T: Threads + Wait + Sync>(
    rt: &T,
    alloc: Global,
    presentation: &Presentation,
    limits: &Limits,
    crew: &Crew<'_, G>,
    watch: &mut W,
) -> Result<Outcome<R>, Memory>
    ensures { IfOk result (CompleteSays
        (problem_of (parts_of presentation.now) limits.now.rules limits.now.len)) }
{
    let book = Book::new(alloc, presentation, limits)?;
    let mut finder = Finder::new(alloc);
    grow_all(rt, alloc, book, &mut finder, crew, watch)
}

/// Grows the book until the completion is at its end.
fn grow_all<R: HasAutomaton + Send + Sync, G: Gate, W: Watch, T: Threads + Wait + Sync>(
    rt: &T,
    alloc: Global,
    mut book: Book<R>,
    finder: &mut Finder,
    crew: &Crew<'_, G>,
    watch: &mut W,
) -> Result<Outcome<R>, Memory>
    requires reduced { AreReduced book.course }
    requires known { Knows finder.old book.course.state }
    ensures { IfOk result (CompleteSays book.course.problem) }
{
    'growing: loop {
        match grow(rt, alloc, book, finder, crew, watch)? {
            Grown::More(next) => book = next,
            Grown::Confluent(rules, book) => return Ok(Outcome::Confluent(rules, book)),
            Grown::Halted(book) => return Ok(Outcome::Halted(book)),
        }
        book_is_sound(&book);
    }
}
