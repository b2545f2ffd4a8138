//! The reducer that reads a word by an automaton.

ghost use Rattle.std.specs.Prelude.{◌≡◌, ◌<◌, List, ℕ, [], ◌∷◌, ◌++◌, IfSome, OnErr, OnOk, length};
ghost use Rattle.std.specs.List.{remove};
ghost use Rattle.kb_word.specs.WordOrders.{Below};
ghost use Rattle.kb_index.specs.Automata.{IsAutomaton};

use crate::automaton::Automaton;
use crate::has_automaton::HasAutomaton;
use crate::reading::{reduce, trace};
use kb_rules::{Reducer, Rule, Rules, Trace, Workspace};
use kb_word::{Memory, Word};
use std::alloc::Global;
use std::marker::Model;

/// A reducer that reads the word from left to right by the automaton of the left sides.
#[derive(Drop)]
pub struct Index {
    rules: Rules,
    /// The automaton of the rules. The old one is given back before it is made anew, so that there are never two. Where
    /// memory runs out then, or in the middle of a change, there is none up to the next change, or until it is tidied,
    /// and no word is reduced.
    automaton: Option<Automaton>,
}

impl Model for Index {
    ghost use Rattle.std.specs.Prelude.{IfSome};
    ghost use Rattle.kb_rules.specs.OrderedRules.{OrderedRules};
    ghost use Rattle.kb_index.specs.Automata.{IsAutomaton};

    ghost Value = { OrderedRules };

    ghost view = { λ index. index.rules };

    ghost invariant = { λ index. IfSome index.automaton (IsAutomaton index.rules.rules) };
}

impl Reducer for Index {
    ghost rules = { λ index. index.rules };

    ghost order = { λ index. index.order };

    fn of(alloc: Global, list: &Rules) -> Result<Index, Memory> {
        let rules = list.copy(alloc)?;
        let automaton = Automaton::of(alloc, rules.as_slice())?;
        Ok(Index {
            rules,
            automaton: Some(automaton),
        })
    }

    fn list(&self) -> &Rules {
        &self.rules
    }

    fn reduce(&self, w: &mut Word, workspace: &mut Workspace) -> Result<(), Memory> {
        match &self.automaton {
            Some(automaton) => reduce(&self.rules, automaton, w, workspace),
            None => Err(Memory),
        }
    }

    fn trace(&self, alloc: Global, w: &Word) -> Result<Trace, Memory> {
        match &self.automaton {
            Some(automaton) => trace(alloc, &self.rules, automaton, w),
            None => Err(Memory),
        }
    }

    fn push(&mut self, alloc: Global, rule: &Rule) -> Result<(), Memory> {
        self.settle_if_due(alloc)?;
        let Index { rules, automaton } = self;
        match automaton {
            Some(automaton) => push_rule(alloc, rules, automaton, rule),
            None => Err(Memory),
        }
    }

    fn remove(&mut self, alloc: Global, place: usize) -> Result<(), Memory> {
        self.settle_if_due(alloc)?;
        let Index { rules, automaton } = self;
        match automaton {
            Some(automaton) => remove_rule(rules, automaton, place),
            None => Err(Memory),
        }
    }

    fn replace(&mut self, alloc: Global, place: usize, rule: &Rule) -> Result<(), Memory> {
        self.settle_if_due(alloc)?;
        let rule = rule.copy(alloc)?;
        let Index { rules, automaton } = self;
        replace_left(automaton, place, rule.left())?;
        let _gone = rules.replace(place, rule);
        Ok(())
    }

    fn tidy(&mut self, alloc: Global) -> Result<(), Memory> {
        self.settle_if_due(alloc)
    }

    fn copy(&self, alloc: Global) -> Result<Index, Memory> {
        let rules = self.rules.copy(alloc)?;
        let automaton = match &self.automaton {
            Some(automaton) => automaton.copy(alloc)?,
            None => Automaton::of(alloc, rules.as_slice())?,
        };
        Ok(Index {
            rules,
            automaton: Some(automaton),
        })
    }
}

impl HasAutomaton for Index {
    fn automaton(&self) -> Option<&Automaton> {
        self.automaton.as_ref()
    }
}

impl Index {
    /// Makes the automaton anew where that is due, or where there is none. The rules stay.
    fn settle_if_due(&mut self, alloc: Global) -> Result<(), Memory>
        ensures { self.new ≡ self.old }
    {
        match &self.automaton {
            Some(automaton) if !automaton.is_due() => Ok(()),
            _ => self.settle(alloc),
        }
    }

    /// Gives the automaton back, and makes it anew. The rules stay.
    fn settle(&mut self, alloc: Global) -> Result<(), Memory>
        ensures { self.new ≡ self.old }
    {
        self.automaton = None;
        let automaton = Automaton::with_room(alloc, self.rules.as_slice())?;
        self.automaton = Some(automaton);
        Ok(())
    }
}

/// Adds a rule at the end of a list, and its left side to the automaton.
fn push_rule(
    alloc: Global,
    rules: &mut Rules,
    automaton: &mut Automaton,
    rule: &Rule,
) -> Result<(), Memory>
    requires automaton { IsAutomaton rules.old.rules automaton.old }
    requires falls { Below rules.old.order rule.now.1 rule.now.0 }
    ensures automaton { IsAutomaton rules.new.rules automaton.new }
    ensures ok { OnOk result (rules.new.rules ≡ rules.old.rules ++ rule.now ∷ []) }
    ensures err { OnErr result (rules.new.rules ≡ rules.old.rules) }
    ensures order { rules.new.order ≡ rules.old.order }
{
    let copy = rule.copy(alloc)?;
    rules.push(copy)?;
    match automaton.push(rule.left()) {
        Ok(()) => Ok(()),
        Err(error) => {
            let _rule = rules.remove(rules.len() - 1);
            Err(error)
        }
    }
}

/// Takes the rule at a place out of a list, and its left side out of the automaton.
fn remove_rule(rules: &mut Rules, automaton: &mut Automaton, place: usize) -> Result<(), Memory>
    requires automaton { IsAutomaton rules.old.rules automaton.old }
    requires place { place < length rules.old.rules }
    ensures automaton { IsAutomaton rules.new.rules automaton.new }
    ensures ok { OnOk result (rules.new.rules ≡ remove rules.old.rules place) }
    ensures err { OnErr result (rules.new.rules ≡ rules.old.rules) }
    ensures order { rules.new.order ≡ rules.old.order }
{
    automaton.remove(place)?;
    let _rule = rules.remove(place);
    Ok(())
}

/// Takes the left side at a place out of an automaton, and adds one at the end. Where memory runs out in the middle of
/// that, there is no automaton any more.
fn replace_left(automaton: &mut Option<Automaton>, place: usize, left: &Word) -> Result<(), Memory>
    requires left { ¬ (left.now ≡ []) }
    requires place { IfSome automaton.old (λ sides. place < length sides.lefts) }
    ensures ok { OnOk result ((lefts : List (List ℕ)) →
        IfSome automaton.old (λ sides. sides.lefts ≡ lefts)
        → IfSome automaton.new (λ sides. sides.lefts ≡ remove lefts place ++ left.now ∷ [])) }
    ensures err { OnErr result ((lefts : List (List ℕ)) →
        IfSome automaton.old (λ sides. sides.lefts ≡ lefts)
        → IfSome automaton.new (λ sides. sides.lefts ≡ lefts)) }
{
    let Some(sides) = automaton else {
        return Err(Memory);
    };
    sides.push(left)?;
    if sides.remove(place).is_err() {
        *automaton = None;
        return Err(Memory);
    }
    Ok(())
}
