//! Rules of a group are asked whether multipliers relate only words that differ by their generators.

ghost use Rattle.std.specs.Prelude.{◌≡◌, Ok, true, false, IfOk};
ghost use Rattle.kb_word.specs.Presentations.{parts_of};
ghost use Rattle.kb_word.specs.Relations.{relations_of};
ghost use Rattle.kb_diff.specs.Groups.{EachInverts};
ghost use Rattle.kb_machine.specs.States.{live_rules};
ghost use Rattle.kb_complete.specs.Completing.{AreReduced, IsHalted};
ghost use Rattle.kb_labels.specs.Labels.{AreEqualSides};
ghost use Rattle.kb_axioms.specs.Truth.{AreMultipliers};
ghost use Rattle.kb_system.specs.Completed.{IsReducedSystem};
ghost use Rattle.kb_system.specs.Evidence.{Limits};
ghost use Rattle.kb_system.specs.Problems.{problem_of};
ghost use Rattle.kb_auto.specs.Deciding.{AreUnresolvedBy};
ghost use Rattle.kb_auto.specs.Rounds.{AreTrue, Decides};

use crate::answers::Decision;
use kb_axioms::{Truth, check_truth};
use kb_book::Book;
use kb_fsa::Fsa;
use kb_index::Index;
use kb_reduced::reduced_complete_systems_are_complete;
use kb_rules::{Reducer, Rules};
use kb_share::book_is_sound;
use kb_system::halted;
use kb_word::{Memory, Presentation};
use std::alloc::Global;

/// Whether rules of the group show that the multipliers relate only words that differ by their generators. Where they
/// don't, they leave it open.
fn are_true<R: Reducer>(
    alloc: Global,
    presentation: &Presentation,
    multipliers: &[Fsa],
    reducer: &R,
) -> Result<bool, Memory>
    requires group { EachInverts presentation.now.n presentation.now.inv }
    requires multipliers { AreMultipliers presentation.now.n multipliers.now }
    requires rules { AreEqualSides (relations_of presentation.now.inv presentation.now.eqs)
        (R.rules reducer.now) }
    ensures yes { result ≡ Ok true → AreTrue presentation.now multipliers.now }
    ensures open { result ≡ Ok false
        → AreUnresolvedBy presentation.now (R.rules reducer.now) multipliers.now }
{
    match check_truth(alloc, presentation, multipliers, reducer, false)? {
        Truth::True => Ok(true),
        Truth::Unresolved { .. } => Ok(false),
        Truth::Different { .. } => unreachable!(),
    }
}

/// What the reduced complete system of the group shows: it settles it.
pub(crate) fn decide_by_complete(
    alloc: Global,
    presentation: &Presentation,
    multipliers: &[Fsa],
    rules: &Rules,
) -> Result<Decision, Memory>
    requires group { EachInverts presentation.now.n presentation.now.inv }
    requires multipliers { AreMultipliers presentation.now.n multipliers.now }
    requires reduced { IsReducedSystem (parts_of presentation.now) rules.now.rules }
    ensures { (limits : Limits)
        → IfOk result (Decides limits presentation.now multipliers.now) }
{
    reduced_complete_systems_are_complete();
    let reducer = Index::of(alloc, rules)?;
    match check_truth(alloc, presentation, multipliers, &reducer, true)? {
        Truth::True => Ok(Decision::True),
        Truth::Different { x, u, v } => Ok(Decision::Different { x, u, v }),
        Truth::Unresolved { .. } => unreachable!(),
    }
}

/// Whether the live rules of a completion show that the multipliers relate only words that differ by their generators.
pub(crate) fn live_rules_show<R: Reducer>(
    alloc: Global,
    presentation: &Presentation,
    multipliers: &[Fsa],
    book: &Book<R>,
) -> Result<bool, Memory>
    requires group { EachInverts presentation.now.n presentation.now.inv }
    requires multipliers { AreMultipliers presentation.now.n multipliers.now }
    requires relations { book.now.course.problem.relations
        ≡ relations_of presentation.now.inv presentation.now.eqs }
    ensures yes { result ≡ Ok true → AreTrue presentation.now multipliers.now }
    ensures open { result ≡ Ok false
        → AreUnresolvedBy presentation.now (live_rules book.now.course.state) multipliers.now }
{
    book_is_sound(book);
    are_true(alloc, presentation, multipliers, book.reducer())
}

/// What a completion shows that halted: its live rules are asked for the last time.
pub(crate) fn decide_at_halt<R: Reducer>(
    alloc: Global,
    presentation: &Presentation,
    multipliers: &[Fsa],
    book: Book<R>,
) -> Result<Decision, Memory>
    requires group { EachInverts presentation.now.n presentation.now.inv }
    requires multipliers { AreMultipliers presentation.now.n multipliers.now }
    requires relations { book.course.problem.relations
        ≡ relations_of presentation.now.inv presentation.now.eqs }
    requires halted { IsHalted book.course }
    requires reduced { AreReduced book.course }
    ensures { (limits : Limits)
        → book.course.problem ≡ problem_of limits (parts_of presentation.now)
        → IfOk result (Decides limits presentation.now multipliers.now) }
{
    if live_rules_show(alloc, presentation, multipliers, &book)? {
        return Ok(Decision::True);
    }
    Ok(Decision::Halted(halted(alloc, book)?))
}
