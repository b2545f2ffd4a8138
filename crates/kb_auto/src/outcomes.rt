//! How the search for an automatic structure ends.

ghost use Rattle.std.specs.Prelude.{◌≡◌, [], ◌∷◌, IfOk};
ghost use Rattle.kb_word.specs.Presentations.{parts_of};
ghost use Rattle.kb_word.specs.Relations.{relations_of};
ghost use Rattle.kb_word.specs.declared.word_order.WordOrder.TheVariants.{ShortLex};
ghost use Rattle.kb_diff.specs.Groups.{AreRulesOver, EachInverts};
ghost use Rattle.kb_diff.specs.Keeping.{AddsPairs};
ghost use Rattle.kb_diff.specs.declared.grow.Grow.{Grow};
ghost use Rattle.kb_labels.specs.Labels.{AreEqualSides};
ghost use Rattle.kb_complete.specs.Completing.{AreReduced, IsCompleted, IsHalted};
ghost use Rattle.kb_system.specs.Problems.{limits_of, problem_of};
ghost use Rattle.kb_auto.specs.Autgroup.{AutgroupSays, HasFailed, tried_by};
ghost use Rattle.kb_auto.specs.Kept.{Tried};
ghost use Rattle.kb_auto.specs.Trials.{KeepsDifferences, LastRoundSays};

use crate::answers::Autgroup;
use crate::live::live_rules_are_of_the_group;
use crate::trying::{Trial, try_rules, watched_round};
use kb_book::{Book, Limits};
use kb_diff::Differences;
use kb_draw::Crew;
use kb_index::Index;
use kb_io::Gate;
use kb_kept::{Listing, list_differences, rule_equalities};
use kb_reduced::{reduced_complete_systems_are_complete, reduced_left_sides_keep_the_letters};
use kb_round::{Round, Structure, WatchRounds};
use kb_rules::{Reducer, Rules};
use kb_share::book_is_sound;
use kb_system::halted;
use kb_word::{Memory, Presentation};
use std::alloc::Global;
use std::sync::Wait;
use std::thread::Threads;

/// What the last round comes to, where a completion halted.
#[derive(Drop)]
enum LastRound {
    /// The group's own automatic structure.
    Own(Structure),
    /// It failed: where its differences were first seen.
    Failed(Listing),
}

/// What the reduced complete system of the group answers: rounds by it keep more differences each, until the automata
/// are the group's own or a limit is reached.
pub(crate) fn answer_by_complete<R: Reducer, W: WatchRounds, G: Gate, T: Threads + Wait + Sync>(
    rt: &T,
    alloc: Global,
    presentation: &Presentation,
    rules: Rules,
    book: Book<R>,
    limits: &Limits,
    crew: &Crew<'_, G>,
    watch: &mut W,
) -> Result<Autgroup, Memory>
    requires group { EachInverts presentation.now.n presentation.now.inv }
    requires shortlex { presentation.now.order ≡ ShortLex }
    requires problem { book.course.problem
        ≡ problem_of (limits_of limits.now) (parts_of presentation.now) }
    requires completed { IsCompleted book.course rules }
    ensures { IfOk result
        (AutgroupSays (limits_of limits.now) limits.now.diffs presentation.now) }
{
    reduced_complete_systems_are_complete();
    reduced_left_sides_keep_the_letters();
    book_is_sound(&book);
    // The log alone may still be asked for: the rest of the book gives its memory to the automata.
    let (lines, _) = book.into_log();
    match try_rules(rt, alloc, presentation, &rules, limits, None, crew, watch)? {
        Trial::Own(structure) => Ok(Autgroup::Own(structure)),
        Trial::NoRoom(listing) => Ok(Autgroup::TooManyDifferences {
            lines,
            rules,
            confluent: true,
            listing,
        }),
        Trial::Counted(which, listing) => Ok(Autgroup::TooManyStates {
            which,
            lines,
            rules,
            listing,
        }),
        Trial::Stuck => unreachable!(),
    }
}

/// What a completion answers that halted: a last round is made by its live rules, by as many of their differences as
/// there is room for.
pub(crate) fn answer_at_halt<R: Reducer, W: WatchRounds, G: Gate, T: Threads + Wait + Sync>(
    rt: &T,
    alloc: Global,
    presentation: &Presentation,
    book: Book<R>,
    limits: &Limits,
    crew: &Crew<'_, G>,
    watch: &mut W,
) -> Result<Autgroup, Memory>
    requires group { EachInverts presentation.now.n presentation.now.inv }
    requires shortlex { presentation.now.order ≡ ShortLex }
    requires problem { book.course.problem
        ≡ problem_of (limits_of limits.now) (parts_of presentation.now) }
    requires halted { IsHalted book.course }
    requires reduced { AreReduced book.course }
    ensures { IfOk result
        (AutgroupSays (limits_of limits.now) limits.now.diffs presentation.now) }
{
    live_rules_are_of_the_group(presentation, &book);
    let halt = halted(alloc, book)?;
    match last_round(rt, alloc, presentation, &halt.rules, limits, crew, watch)? {
        LastRound::Own(structure) => Ok(Autgroup::Own(structure)),
        LastRound::Failed(listing) => Ok(Autgroup::Halted {
            halted: halt,
            listing,
        }),
    }
}

/// Makes a round by as many differences of the rules as there is room for.
fn last_round<W: WatchRounds, G: Gate, T: Threads + Wait + Sync>(
    rt: &T,
    alloc: Global,
    presentation: &Presentation,
    rules: &Rules,
    limits: &Limits,
    crew: &Crew<'_, G>,
    watch: &mut W,
) -> Result<LastRound, Memory>
    requires group { EachInverts presentation.now.n presentation.now.inv }
    requires shortlex { presentation.now.order ≡ ShortLex }
    requires letters { AreRulesOver presentation.now.n rules.now.rules }
    requires sides { AreEqualSides (relations_of presentation.now.inv presentation.now.eqs)
        rules.now.rules }
    ensures { IfOk result (LastRoundSays (tried_by (limits_of limits.now) limits.now.diffs
        presentation.now rules.now.rules)) }
{
    let (differences, _) = Differences::from_rules(alloc, presentation, rules, limits.diffs)?;
    round_by(
        rt,
        alloc,
        presentation,
        rules,
        &differences,
        limits,
        crew,
        watch,
    )
}

/// Makes a round by these differences of the rules.
fn round_by<W: WatchRounds, G: Gate, T: Threads + Wait + Sync>(
    rt: &T,
    alloc: Global,
    presentation: &Presentation,
    rules: &Rules,
    differences: &Differences<Index>,
    limits: &Limits,
    crew: &Crew<'_, G>,
    watch: &mut W,
) -> Result<LastRound, Memory>
    requires group { EachInverts presentation.now.n presentation.now.inv }
    requires shortlex { presentation.now.order ≡ ShortLex }
    requires letters { AreRulesOver presentation.now.n rules.now.rules }
    requires sides { AreEqualSides (relations_of presentation.now.inv presentation.now.eqs)
        rules.now.rules }
    requires kept { KeepsDifferences (tried_by (limits_of limits.now) limits.now.diffs
        presentation.now rules.now.rules) differences.now }
    ensures { IfOk result (LastRoundSays (tried_by (limits_of limits.now) limits.now.diffs
        presentation.now rules.now.rules)) }
{
    let states = limits.states;
    match watched_round(
        rt,
        alloc,
        presentation,
        rules,
        differences,
        states,
        crew,
        watch,
    )? {
        Round::Own(structure) => Ok(LastRound::Own(structure)),
        Round::Refuted(_) => failed(alloc, rules, differences),
        Round::TooManyStates(_) => failed(alloc, rules, differences),
    }
}

/// The round failed: where its differences were first seen.
fn failed(
    alloc: Global,
    rules: &Rules,
    differences: &Differences<Index>,
) -> Result<LastRound, Memory>
    requires letters { AreRulesOver differences.now.group.n rules.now.rules }
    requires kept { (answer : Grow) × AddsPairs differences.now.group differences.now.most
        rules.now.rules ([] ∷ []) differences.now.words answer }
    ensures { (tried : Tried) → tried.rules ≡ rules.now.rules
        → KeepsDifferences tried differences.now → HasFailed tried differences.now.words
        → IfOk result (LastRoundSays tried) }
{
    let equalities = rule_equalities(alloc, rules)?;
    let listing = list_differences(alloc, differences, equalities)?;
    Ok(LastRound::Failed(listing))
}
