//! How a completion ends.

ghost use Rattle.std.specs.Prelude.{IfOk};
ghost use Rattle.kb_word.specs.Presentations.{parts_of};
ghost use Rattle.kb_system.specs.Problems.{limits_of};
ghost use Rattle.kb_system.specs.Ended.{EndsAs};

use crate::accepting::completed;
use crate::halting::halted;
use kb_book::Limits;
use kb_complete::{Outcome, complete_watched};
use kb_draw::Crew;
use kb_fsa::Fsa;
use kb_index::Index;
use kb_io::Gate;
use kb_machine::Line;
use kb_rules::Rules;
use kb_share::Watch;
use kb_word::{Memory, Presentation};
use std::alloc::Global;
use std::sync::Wait;
use std::thread::Threads;

/// A limit of the log.
#[derive(Clone, Copy, Debug, PartialEq, Eq)]
pub enum Reached {
    /// The log has as many lines as it may have.
    Lines,
    /// A left side would have more letters than it may have.
    Letters,
}

/// A completion that halted at a limit of the log.
#[derive(Drop)]
pub struct Halted {
    /// The limit.
    pub reached: Reached,
    /// The log.
    pub lines: Vec<Line>,
    /// The line that would be made of the pair that waits.
    pub waiting: Line,
    /// The live rules in line order.
    pub rules: Rules,
}

/// How a completion ended.
#[derive(Drop)]
pub enum Ending {
    /// With the reduced complete system and the word acceptor.
    Completed { rules: Rules, acceptor: Fsa },
    /// At a limit of the log.
    Halted(Halted),
    /// With the reduced complete system, whose word acceptor would have more states than it may have; and the log.
    TooLarge { lines: Vec<Line>, rules: Rules },
}

/// Completes a presentation within limits, by the workers, and makes its word acceptor.
pub fn complete_presentation<G: Gate, W: Watch, T: Threads + Wait + Sync>(
    rt: &T,
    alloc: Global,
    presentation: &Presentation,
    limits: &Limits,
    crew: &Crew<'_, G>,
    watch: &mut W,
) -> Result<Ending, Memory>
    ensures { IfOk result (EndsAs (limits_of limits.now) (parts_of presentation.now)) }
{
    match complete_watched::<Index, G, W, T>(rt, alloc, presentation, limits, crew, watch)? {
        Outcome::Confluent(rules, book) => completed(alloc, presentation, limits, rules, book),
        Outcome::Halted(book) => Ok(Ending::Halted(halted(alloc, book)?)),
    }
}
