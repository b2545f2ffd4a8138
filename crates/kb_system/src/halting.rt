//! Completions that halted at a limit.

ghost use Rattle.std.specs.Prelude.{◌≡◌, List, ◌∷◌, Some, IfOk};
ghost use Rattle.kb_word.specs.Presentations.{PresentationParts};
ghost use Rattle.kb_machine.specs.declared.origin.Origin.{Origin as PairOrigin};
ghost use Rattle.kb_machine.specs.Course.{waiting_line as line_of};
ghost use Rattle.kb_machine.specs.States.{live_rules as rules_that_live};
ghost use Rattle.kb_complete.specs.Completing.{AreReduced, IsHalted};
ghost use Rattle.kb_system.specs.Evidence.{Limits};
ghost use Rattle.kb_system.specs.Problems.{problem_of, reached_by};
ghost use Rattle.kb_system.specs.Ended.{ShowsHalt};

use crate::ending::{Halted, Reached};
use kb_book::Book;
use kb_machine::{Halt, Line, Origin};
use kb_rules::Reducer;
use kb_share::{book_is_sound, live_rules};
use kb_word::Memory;
use std::alloc::Global;

/// What a completion shows that halted: its log, the line that waits, and its live rules.
pub fn halted<R: Reducer>(alloc: Global, book: Book<R>) -> Result<Halted, Memory>
    requires halted { IsHalted book.course }
    requires reduced { AreReduced book.course }
    ensures shows { IfOk result (λ halted. (limits : Limits) (parts : PresentationParts)
        → book.course.problem ≡ problem_of limits parts → ShowsHalt limits parts halted) }
    ensures rules { IfOk result
        (λ halted. halted.rules.rules ≡ rules_that_live book.course.state) }
{
    book_is_sound(&book);
    let rules = live_rules(alloc, &book)?;
    let origin = first_pending(&book);
    let (lines, halt) = log_and_halt(book);
    let reached = reached_by(&halt);
    let waiting = waiting_line(origin, halt);
    Ok(Halted {
        reached,
        lines,
        waiting,
        rules,
    })
}

/// The origin of the first pending pair. A completion that halted has one.
fn first_pending<R: Reducer>(book: &Book<R>) -> Origin
    requires { IsHalted book.now.course }
    ensures { (rest : List PairOrigin) × (book.now.course.state.pending ≡ result ∷ rest) }
{
    book_is_sound(book);
    match book.pending().front() {
        Some(origin) => *origin,
        None => unreachable!(),
    }
}

/// The lines of a completion that halted, and its halt.
fn log_and_halt<R: Reducer>(book: Book<R>) -> (Vec<Line>, Halt)
    requires { IsHalted book.course }
    ensures lines { result.0.items ≡ book.course.state.lines }
    ensures halt { book.course.state.halt ≡ Some result.1 }
{
    match book.into_log() {
        (lines, Some(halt)) => (lines, halt),
        (_, None) => unreachable!(),
    }
}

/// The limit that a halt names.
fn reached_by(halt: &Halt) -> Reached
    ensures { result ≡ reached_by halt.now }
{
    match halt {
        Halt::Rules { .. } => Reached::Lines,
        Halt::Length { .. } => Reached::Letters,
    }
}

/// The line that would be made of the pair that waits.
fn waiting_line(origin: Origin, halt: Halt) -> Line
    ensures { result ≡ line_of origin halt }
{
    match halt {
        Halt::Rules {
            u,
            v,
            first_steps,
            second_steps,
        }
        | Halt::Length {
            u,
            v,
            first_steps,
            second_steps,
        } => Line {
            origin,
            left: u,
            right: v,
            first_steps,
            second_steps,
        },
    }
}
