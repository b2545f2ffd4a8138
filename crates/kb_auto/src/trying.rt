//! Rounds by one list of rules.

ghost use Rattle.std.specs.Prelude.{◌≡◌, IfOk, false, None};
ghost use Rattle.kb_word.specs.Relations.{relations_of};
ghost use Rattle.kb_word.specs.declared.word_order.WordOrder.TheVariants.{ShortLex};
ghost use Rattle.kb_diff.specs.Groups.{AreRulesOver, EachInverts, group_of};
ghost use Rattle.kb_labels.specs.Labels.{AreEqualSides};
ghost use Rattle.kb_round.specs.Rounds.{RoundSays};
ghost use Rattle.kb_system.specs.Problems.{limits_of};
ghost use Rattle.kb_auto.specs.Autgroup.{tried_by};
ghost use Rattle.kb_auto.specs.Trials.{Gathers, GathersRules, TrialSays};

use crate::gathering::{Gathered, Gathering};
use kb_book::Limits;
use kb_diff::Differences;
use kb_draw::Crew;
use kb_index::Index;
use kb_io::Gate;
use kb_kept::Listing;
use kb_reduced::reduced_complete_systems_are_complete;
use kb_round::{
    Construction, Round, Structure, WatchRounds, round, rounds_by_reduced_systems_keep_more,
    rounds_by_reduced_systems_lack_images,
};
use kb_rules::Rules;
use kb_word::{Memory, Presentation};
use std::alloc::Global;
use std::sync::Wait;
use std::thread::Threads;

/// What rounds by one list of rules come to.
#[derive(Drop)]
pub(crate) enum Trial {
    /// The group's own automatic structure.
    Own(Structure),
    /// As many differences are kept as may be, and another one is needed.
    NoRoom(Listing),
    /// Without a budget: a construction would have more states than it may have.
    Counted(Construction, Listing),
    /// The rules lead no further: more rounds would come to the same, or they have a budget, which is used up or whose
    /// last round would have made more states than a construction may have.
    Stuck,
}

/// Makes rounds by rules of the group, each by the differences of the rules and of the failed rounds before. Where
/// there is a budget, only so many failed rounds are gone by.
pub(crate) fn try_rules<W: WatchRounds, G: Gate, T: Threads + Wait + Sync>(
    rt: &T,
    alloc: Global,
    presentation: &Presentation,
    rules: &Rules,
    limits: &Limits,
    budget: Option<u32>,
    crew: &Crew<'_, G>,
    watch: &mut W,
) -> Result<Trial, Memory>
    requires group { EachInverts presentation.now.n presentation.now.inv }
    requires shortlex { presentation.now.order ≡ ShortLex }
    requires letters { AreRulesOver presentation.now.n rules.now.rules }
    requires sides { AreEqualSides (relations_of presentation.now.inv presentation.now.eqs)
        rules.now.rules }
    ensures { IfOk result (TrialSays (tried_by (limits_of limits.now) limits.now.diffs
        presentation.now rules.now.rules) budget) }
{
    let (differences, answer) = Differences::from_rules(alloc, presentation, rules, limits.diffs)?;
    let mut gathered = Gathered {
        differences,
        rounds: Vec::new(alloc),
    };
    try_gathered(
        rt,
        alloc,
        presentation,
        rules,
        &mut gathered,
        answer.is_full(),
        limits,
        budget,
        crew,
        watch,
    )
}

/// Makes rounds by the differences of the rules, unless there is no room for one of them.
fn try_gathered<W: WatchRounds, G: Gate, T: Threads + Wait + Sync>(
    rt: &T,
    alloc: Global,
    presentation: &Presentation,
    rules: &Rules,
    gathered: &mut Gathered,
    is_full: bool,
    limits: &Limits,
    budget: Option<u32>,
    crew: &Crew<'_, G>,
    watch: &mut W,
) -> Result<Trial, Memory>
    requires group { EachInverts presentation.now.n presentation.now.inv }
    requires shortlex { presentation.now.order ≡ ShortLex }
    requires letters { AreRulesOver presentation.now.n rules.now.rules }
    requires sides { AreEqualSides (relations_of presentation.now.inv presentation.now.eqs)
        rules.now.rules }
    requires gathered { GathersRules (tried_by (limits_of limits.now) limits.now.diffs
        presentation.now rules.now.rules) is_full gathered.old }
    ensures { IfOk result (TrialSays (tried_by (limits_of limits.now) limits.now.diffs
        presentation.now rules.now.rules) budget) }
{
    if is_full {
        let listing = gathered.list(alloc, presentation, rules, limits)?;
        return Ok(Trial::NoRoom(listing));
    }
    try_rounds(
        rt,
        alloc,
        presentation,
        rules,
        gathered,
        limits,
        budget,
        crew,
        watch,
    )
}

/// Makes rounds by the differences that are kept so far, and by those of failed rounds.
fn try_rounds<W: WatchRounds, G: Gate, T: Threads + Wait + Sync>(
    rt: &T,
    alloc: Global,
    presentation: &Presentation,
    rules: &Rules,
    gathered: &mut Gathered,
    limits: &Limits,
    budget: Option<u32>,
    crew: &Crew<'_, G>,
    watch: &mut W,
) -> Result<Trial, Memory>
    requires group { EachInverts presentation.now.n presentation.now.inv }
    requires shortlex { presentation.now.order ≡ ShortLex }
    requires letters { AreRulesOver presentation.now.n rules.now.rules }
    requires sides { AreEqualSides (relations_of presentation.now.inv presentation.now.eqs)
        rules.now.rules }
    requires gathered { Gathers (tried_by (limits_of limits.now) limits.now.diffs
        presentation.now rules.now.rules) gathered.old }
    ensures { IfOk result (TrialSays (tried_by (limits_of limits.now) limits.now.diffs
        presentation.now rules.now.rules) budget) }
{
    reduced_complete_systems_are_complete();
    rounds_by_reduced_systems_lack_images();
    rounds_by_reduced_systems_keep_more();
    'rounds: loop {
        match watched_round(
            rt,
            alloc,
            presentation,
            rules,
            &gathered.differences,
            limits.states,
            crew,
            watch,
        )? {
            Round::Own(structure) => return Ok(Trial::Own(structure)),
            Round::TooManyStates(_) if budget.is_some() => return Ok(Trial::Stuck),
            Round::TooManyStates(which) => {
                let listing = gathered.list(alloc, presentation, rules, limits)?;
                return Ok(Trial::Counted(which, listing));
            }
            Round::Refuted(equality) => {
                if is_used_up(budget, gathered.rounds.len()) {
                    return Ok(Trial::Stuck);
                }
                match gathered.gather(alloc, equality)? {
                    Gathering::More => (),
                    Gathering::NoRoom => {
                        let listing = gathered.list(alloc, presentation, rules, limits)?;
                        return Ok(Trial::NoRoom(listing));
                    }
                    Gathering::Nothing => return Ok(Trial::Stuck),
                }
            }
        }
    }
}

/// Whether a budget of failed rounds is used up.
fn is_used_up(budget: Option<u32>, rounds: usize) -> bool
    ensures { budget ≡ None → result ≡ false }
{
    match budget {
        Some(most) => rounds >= most as usize,
        None => false,
    }
}

/// Makes a round by differences of the rules, and lets somebody watch.
pub(crate) fn watched_round<W: WatchRounds, G: Gate, T: Threads + Wait + Sync>(
    rt: &T,
    alloc: Global,
    presentation: &Presentation,
    rules: &Rules,
    differences: &Differences<Index>,
    states: u32,
    crew: &Crew<'_, G>,
    watch: &mut W,
) -> Result<Round, Memory>
    requires group { EachInverts presentation.now.n presentation.now.inv }
    requires shortlex { presentation.now.order ≡ ShortLex }
    requires same { differences.now.group ≡ group_of presentation.now rules.now.rules }
    requires sides { AreEqualSides (relations_of presentation.now.inv presentation.now.eqs)
        rules.now.rules }
    ensures { IfOk result (RoundSays presentation.now rules.now.rules differences.now.words states) }
{
    let (made, figures) = round(rt, alloc, presentation, differences, states, crew)?;
    watch.round_made(rules.len(), &figures);
    Ok(made)
}
