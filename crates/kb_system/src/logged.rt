//! How a completion ends whose log is kept.

ghost use Rattle.std.specs.Prelude.{◌≡◌, IfOk};
ghost use Rattle.kb_word.specs.Presentations.{parts_of};
ghost use Rattle.kb_complete.specs.Completing.{IsCompleted};
ghost use Rattle.kb_system.specs.Problems.{limits_of, problem_of};
ghost use Rattle.kb_system.specs.Logged.{EndsLogged};

use crate::accepting::word_acceptor;
use crate::ending::Halted;
use crate::halting::halted;
use kb_book::{Book, Limits};
use kb_complete::{Outcome, complete_watched};
use kb_draw::Crew;
use kb_fsa::Fsa;
use kb_index::Index;
use kb_io::Gate;
use kb_machine::Line;
use kb_rules::{Reducer, Rules};
use kb_share::{Watch, book_is_sound};
use kb_word::{Memory, Presentation};
use std::alloc::Global;
use std::sync::Wait;
use std::thread::Threads;

/// How a completion ended whose log is kept.
#[derive(Drop)]
pub enum LoggedEnding {
    /// With the reduced complete system, the word acceptor, and the log that certifies them.
    Completed {
        lines: Vec<Line>,
        rules: Rules,
        acceptor: Fsa,
    },
    /// At a limit of the log.
    Halted(Halted),
    /// With the reduced complete system, whose word acceptor would have more states than it may have; and the log.
    TooLarge {
        lines: Vec<Line>,
        rules: Rules,
    },
}

/// Completes a presentation within limits, by the workers, makes its word acceptor, and keeps the log.
pub fn complete_with_log<G: Gate, W: Watch, T: Threads + Wait + Sync>(
    rt: &T,
    alloc: Global,
    presentation: &Presentation,
    limits: &Limits,
    crew: &Crew<'_, G>,
    watch: &mut W,
) -> Result<LoggedEnding, Memory>
    ensures { IfOk result (EndsLogged (limits_of limits.now) (parts_of presentation.now)) }
{
    match complete_watched::<Index, G, W, T>(rt, alloc, presentation, limits, crew, watch)? {
        Outcome::Confluent(rules, book) => completed(alloc, presentation, limits, rules, book),
        Outcome::Halted(book) => Ok(LoggedEnding::Halted(halted(alloc, book)?)),
    }
}

/// The end of a completion that came to the reduced complete system: with the word acceptor and the log, or with the
/// log alone where the acceptor has too many states.
fn completed<R: Reducer>(
    alloc: Global,
    presentation: &Presentation,
    limits: &Limits,
    rules: Rules,
    book: Book<R>,
) -> Result<LoggedEnding, Memory>
    requires problem { book.course.problem
        ≡ problem_of (limits_of limits.now) (parts_of presentation.now) }
    requires completed { IsCompleted book.course rules }
    ensures { IfOk result (EndsLogged (limits_of limits.now) (parts_of presentation.now)) }
{
    book_is_sound(&book);
    // The rest of the book gives its memory to the acceptor.
    let (lines, _) = book.into_log();
    match word_acceptor(alloc, presentation, &rules, limits.states)? {
        Some(acceptor) => Ok(LoggedEnding::Completed {
            lines,
            rules,
            acceptor,
        }),
        None => Ok(LoggedEnding::TooLarge { lines, rules }),
    }
}
