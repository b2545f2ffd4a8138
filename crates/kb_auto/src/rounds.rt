//! Rounds of a completion, after each of which its rules are asked.

ghost use Rattle.std.specs.Prelude.{◌≡◌, IfOk};
ghost use Rattle.kb_diff.specs.Groups.{EachInverts};
ghost use Rattle.kb_axioms.specs.Truth.{AreMultipliers};
ghost use Rattle.kb_system.specs.Problems.{limits_of};
ghost use Rattle.kb_auto.specs.Rounds.{Decides, IsUnderWay};

use crate::answers::Decision;
use crate::asking::{decide_at_halt, decide_by_complete, live_rules_show};
use kb_book::{Book, Limits};
use kb_complete::{Grown, grow};
use kb_draw::Crew;
use kb_fsa::Fsa;
use kb_index::{HasAutomaton, Index};
use kb_io::Gate;
use kb_share::{Finder, Watch, book_is_sound};
use kb_word::{Memory, Presentation};
use std::alloc::Global;
use std::sync::Wait;
use std::thread::Threads;

/// Completes a presentation within limits until its rules settle whether multipliers relate only words that differ by
/// their generators.
pub(crate) fn decide<G: Gate, W: Watch, T: Threads + Wait + Sync>(
    rt: &T,
    alloc: Global,
    presentation: &Presentation,
    multipliers: &[Fsa],
    limits: &Limits,
    crew: &Crew<'_, G>,
    watch: &mut W,
) -> Result<Decision, Memory>
    requires group { EachInverts presentation.now.n presentation.now.inv }
    requires multipliers { AreMultipliers presentation.now.n multipliers.now }
    ensures { IfOk result (Decides (limits_of limits.now) presentation.now multipliers.now) }
{
    let book = Book::<Index>::new(alloc, presentation, limits)?;
    let mut finder = Finder::new(alloc);
    decide_by_rounds(
        rt,
        alloc,
        presentation,
        multipliers,
        limits,
        book,
        &mut finder,
        crew,
        watch,
    )
}

/// Grows the book until its rules settle it, or a limit is reached.
fn decide_by_rounds<R: HasAutomaton + Send + Sync, G: Gate, W: Watch, T: Threads + Wait + Sync>(
    rt: &T,
    alloc: Global,
    presentation: &Presentation,
    multipliers: &[Fsa],
    limits: &Limits,
    mut book: Book<R>,
    finder: &mut Finder,
    crew: &Crew<'_, G>,
    watch: &mut W,
) -> Result<Decision, Memory>
    requires group { EachInverts presentation.now.n presentation.now.inv }
    requires multipliers { AreMultipliers presentation.now.n multipliers.now }
    requires under_way { IsUnderWay (limits_of limits.now) presentation.now book.course finder.old }
    ensures { IfOk result (Decides (limits_of limits.now) presentation.now multipliers.now) }
{
    'rounds: loop {
        match grow(rt, alloc, book, finder, crew, watch)? {
            Grown::More(next) => book = next,
            Grown::Confluent(rules, _book) => {
                return decide_by_complete(alloc, presentation, multipliers, &rules);
            }
            Grown::Halted(book) => return decide_at_halt(alloc, presentation, multipliers, book),
        }
        book_is_sound(&book);
        if live_rules_show(alloc, presentation, multipliers, &book)? {
            return Ok(Decision::True);
        }
    }
}
