//! The search for a group's automatic structure.

ghost use Rattle.std.specs.Prelude.{◌≡◌, [], IfOk};
ghost use Rattle.kb_word.specs.Presentations.{parts_of};
ghost use Rattle.kb_word.specs.declared.word_order.WordOrder.TheVariants.{ShortLex};
ghost use Rattle.kb_diff.specs.Groups.{EachInverts};
ghost use Rattle.kb_system.specs.Problems.{limits_of, problem_of};
ghost use Rattle.kb_auto.specs.Autgroup.{AutgroupSays};
ghost use Rattle.kb_auto.specs.Rounds.{IsUnderWay};
ghost use Rattle.kb_auto.specs.Trials.{LiveTrialSays};

use crate::answers::Autgroup;
use crate::growth::grow_twofold;
use crate::live::live_rules_are_of_the_group;
use crate::outcomes::{answer_at_halt, answer_by_complete};
use crate::trying::{Trial, try_rules};
use kb_book::{Book, Limits};
use kb_complete::Grown;
use kb_draw::Crew;
use kb_index::{HasAutomaton, Index};
use kb_io::Gate;
use kb_kept::Listing;
use kb_round::{Structure, WatchRounds};
use kb_rules::{Reducer, Rules};
use kb_share::{Finder, Watch, book_is_sound, live_rules};
use kb_word::{Memory, Presentation};
use std::alloc::Global;
use std::sync::Wait;
use std::thread::Threads;

/// What the trial of live rules comes to.
#[derive(Drop)]
enum LiveTrial {
    /// The group's own automatic structure.
    Own(Structure),
    /// As many differences of these rules are kept as may be, and another one is needed.
    NoRoom(Rules, Listing),
    /// Better rules are needed.
    Open,
}

/// Looks for the automatic structure of the group that is presented.
pub fn autgroup<G: Gate, W: Watch + WatchRounds, T: Threads + Wait + Sync>(
    rt: &T,
    alloc: Global,
    presentation: &Presentation,
    limits: &Limits,
    crew: &Crew<'_, G>,
    watch: &mut W,
) -> Result<Autgroup, Memory>
    requires group { EachInverts presentation.now.n presentation.now.inv }
    requires shortlex { presentation.now.order ≡ ShortLex }
    ensures { IfOk result
        (AutgroupSays (limits_of limits.now) limits.now.diffs presentation.now) }
{
    let book = Book::<Index>::new(alloc, presentation, limits)?;
    let mut finder = Finder::new(alloc);
    search_by_growths(
        rt,
        alloc,
        presentation,
        limits,
        book,
        &mut finder,
        crew,
        watch,
    )
}

/// Grows the book, and tries its live rules after each growth, until the search is at its end. The rules of the first
/// growth may lead by one failed round, and those of each further growth by twice as many as before.
fn search_by_growths<
    R: HasAutomaton + Send + Sync,
    G: Gate,
    W: Watch + WatchRounds,
    T: Threads + Wait + Sync,
>(
    rt: &T,
    alloc: Global,
    presentation: &Presentation,
    limits: &Limits,
    mut book: Book<R>,
    finder: &mut Finder,
    crew: &Crew<'_, G>,
    watch: &mut W,
) -> Result<Autgroup, Memory>
    requires group { EachInverts presentation.now.n presentation.now.inv }
    requires shortlex { presentation.now.order ≡ ShortLex }
    requires under_way { IsUnderWay (limits_of limits.now) presentation.now book.course finder.old }
    ensures { IfOk result
        (AutgroupSays (limits_of limits.now) limits.now.diffs presentation.now) }
{
    let mut budget: u32 = 1;
    'growths: loop {
        match grow_twofold(rt, alloc, book, finder, crew, watch)? {
            Grown::More(next) => book = next,
            Grown::Confluent(rules, end) => {
                return answer_by_complete(rt, alloc, presentation, rules, end, limits, crew, watch);
            }
            Grown::Halted(end) => {
                return answer_at_halt(rt, alloc, presentation, end, limits, crew, watch);
            }
        }
        book_is_sound(&book);
        match try_live_rules(rt, alloc, presentation, limits, &book, budget, crew, watch)? {
            LiveTrial::Own(structure) => return Ok(Autgroup::Own(structure)),
            LiveTrial::NoRoom(rules, listing) => {
                let (lines, _) = book.into_log();
                return Ok(Autgroup::TooManyDifferences {
                    lines,
                    rules,
                    confluent: false,
                    listing,
                });
            }
            LiveTrial::Open => (),
        }
        budget = budget.saturating_mul(2);
    }
}

/// Tries the live rules of a book in which nothing is pending.
fn try_live_rules<R: Reducer, W: WatchRounds, G: Gate, T: Threads + Wait + Sync>(
    rt: &T,
    alloc: Global,
    presentation: &Presentation,
    limits: &Limits,
    book: &Book<R>,
    budget: u32,
    crew: &Crew<'_, G>,
    watch: &mut W,
) -> Result<LiveTrial, Memory>
    requires group { EachInverts presentation.now.n presentation.now.inv }
    requires shortlex { presentation.now.order ≡ ShortLex }
    requires problem { book.now.course.problem
        ≡ problem_of (limits_of limits.now) (parts_of presentation.now) }
    requires settled { book.now.course.state.pending ≡ [] }
    ensures { IfOk result (LiveTrialSays (limits_of limits.now) limits.now.diffs
        presentation.now book.now.course.state.lines) }
{
    live_rules_are_of_the_group(presentation, book);
    book_is_sound(book);
    let rules = live_rules(alloc, book)?;
    match try_rules(
        rt,
        alloc,
        presentation,
        &rules,
        limits,
        Some(budget),
        crew,
        watch,
    )? {
        Trial::Own(structure) => Ok(LiveTrial::Own(structure)),
        Trial::NoRoom(listing) => Ok(LiveTrial::NoRoom(rules, listing)),
        Trial::Counted(_, _) => Ok(LiveTrial::Open),
        Trial::Stuck => Ok(LiveTrial::Open),
    }
}
