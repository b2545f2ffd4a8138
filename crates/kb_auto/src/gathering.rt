//! The word differences of rules, and those of failed rounds.

ghost use Rattle.std.specs.Prelude.{◌≡◌, ◌↔◌, ◌⊎◌, ◌++◌, IfOk, IsTrue};
ghost use Rattle.kb_word.specs.Words.{OneOf};
ghost use Rattle.kb_word.specs.Relations.{IsOver};
ghost use Rattle.kb_word.specs.Rewriting.{IsIrreducible};
ghost use Rattle.kb_diff.specs.Groups.{AreRulesOver};
ghost use Rattle.kb_diff.specs.declared.grow.Grow.{Grow as Answer};
ghost use Rattle.kb_diff.specs.declared.grow.Grow.TheVariants.{Same};
ghost use Rattle.kb_kept.specs.declared.equality.Equality.{Equality as Round};
ghost use Rattle.kb_system.specs.Problems.{limits_of};
ghost use Rattle.kb_auto.specs.Autgroup.{IsShort, tried_by};
ghost use Rattle.kb_auto.specs.Kept.{IsKept};
ghost use Rattle.kb_auto.specs.Trials.{AddsRound, BringsNothing, GatheringSays, Gathers, LacksRoom};
ghost use Rattle.kb_auto.specs.declared.gathering.Gathered.{Gathered as Kept};

use kb_book::Limits;
use kb_diff::{Differences, Grow};
use kb_index::Index;
use kb_kept::{Equality, Listing, list_differences, rule_equalities};
use kb_rules::{Reducer, Rules};
use kb_word::{Memory, Presentation, Word};
use std::alloc::Global;
use std::mem::replace;

/// The word differences that are kept of rules and of the equalities of failed rounds.
#[derive(Drop)]
pub(crate) struct Gathered {
    /// The differences.
    pub differences: Differences<Index>,
    /// The equalities of the failed rounds, in order.
    pub rounds: Vec<Equality>,
}

/// What comes of the equality of a failed round.
#[derive(Clone, Copy, Debug, PartialEq, Eq)]
pub(crate) enum Gathering {
    /// It has more differences, and they are kept.
    More,
    /// It has one for which there is no room.
    NoRoom,
    /// A word of it is reducible, or its differences are kept already: another round would come to the same.
    Nothing,
}

impl Gathered {
    /// Keeps the differences of the equality of a failed round, and the equality.
    pub(crate) fn gather(&mut self, alloc: Global, equality: Equality) -> Result<Gathering, Memory>
        requires first { IsOver self.old.differences.group.n equality.u }
        requires second { IsOver self.old.differences.group.n equality.v }
        ensures { IfOk result (GatheringSays self.old self.new equality) }
    {
        if are_irreducible(alloc, &equality, self.differences.reducer())? {
            self.gather_irreducible(alloc, equality)
        } else {
            Ok(Gathering::Nothing)
        }
    }

    /// Keeps the differences of an equality of irreducible words, and the equality.
    fn gather_irreducible(&mut self, alloc: Global, equality: Equality) -> Result<Gathering, Memory>
        requires first { IsOver self.old.differences.group.n equality.u }
        requires second { IsOver self.old.differences.group.n equality.v }
        requires first_is_irreducible { IsIrreducible (OneOf self.old.differences.group.rules)
            equality.u }
        requires second_is_irreducible { IsIrreducible (OneOf self.old.differences.group.rules)
            equality.v }
        ensures { IfOk result (GatheringSays self.old self.new equality) }
    {
        let none = Word::new(alloc);
        let answer = self
            .differences
            .add_path(alloc, &equality.u, &equality.v, &none)?;
        self.rounds.push(equality)?;
        Ok(gathering_of(answer))
    }

    /// Where the differences of the rules and of the failed rounds were first seen, and the one for which there is no
    /// room. The equalities of the rounds go into the listing.
    pub(crate) fn list(
        &mut self,
        alloc: Global,
        presentation: &Presentation,
        rules: &Rules,
        limits: &Limits,
    ) -> Result<Listing, Memory>
        requires letters { AreRulesOver presentation.now.n rules.now.rules }
        requires gathered { Gathers (tried_by (limits_of limits.now) limits.now.diffs
            presentation.now rules.now.rules) self.old ⊎ LacksRoom (tried_by
            (limits_of limits.now) limits.now.diffs presentation.now rules.now.rules) self.old }
        ensures kept { Gathers (tried_by (limits_of limits.now) limits.now.diffs
            presentation.now rules.now.rules) self.old
            → IfOk result (IsKept (tried_by (limits_of limits.now) limits.now.diffs
            presentation.now rules.now.rules) self.old.differences.words) }
        ensures short { LacksRoom (tried_by (limits_of limits.now) limits.now.diffs
            presentation.now rules.now.rules) self.old
            → IfOk result (IsShort (tried_by (limits_of limits.now) limits.now.diffs
            presentation.now rules.now.rules)) }
    {
        let rounds = replace(&mut self.rounds, Vec::new(alloc));
        let equalities = joined(rule_equalities(alloc, rules)?, rounds)?;
        Ok(list_differences(alloc, &self.differences, equalities)?)
    }
}

/// What comes of an equality whose differences were added with an answer.
fn gathering_of(answer: Grow) -> Gathering
    ensures { (before after : Kept) (equality : Round) → AddsRound before equality answer after
        → ((answer ≡ Same) → BringsNothing before equality)
        → GatheringSays before after equality result }
{
    match answer {
        Grow::Grew => Gathering::More,
        Grow::Same => Gathering::Nothing,
        Grow::Full { .. } => Gathering::NoRoom,
    }
}

/// Whether both words of the equality are irreducible.
fn are_irreducible<R: Reducer>(
    alloc: Global,
    equality: &Equality,
    reducer: &R,
) -> Result<bool, Memory>
    ensures { IfOk result (λ answer. IsTrue answer
        ↔ (IsIrreducible (OneOf (R.rules reducer.now)) equality.now.u
        × IsIrreducible (OneOf (R.rules reducer.now)) equality.now.v)) }
{
    let first = reducer.nf(alloc, &equality.u)? == equality.u;
    let second = reducer.nf(alloc, &equality.v)? == equality.v;
    Ok(first && second)
}

/// The equalities of both lists, one list after the other.
fn joined(mut equalities: Vec<Equality>, more: Vec<Equality>) -> Result<Vec<Equality>, Memory>
    ensures { IfOk result (λ all. all.items ≡ equalities.items ++ more.items) }
{
    for equality in more {
        equalities.push(equality)?;
    }
    Ok(equalities)
}
