//! Lists of rules.

ghost use Rattle.std.specs.Prelude.{◌≡◌, ◌↔◌, ◌<◌, [], ◌∷◌, ◌++◌, IsTrue, IfOk, OnOk, OnErr, length, slice_get, Some};
ghost use Rattle.std.specs.List.{remove};
ghost use Rattle.std.specs.Option.{option_copied};
ghost use Rattle.kb_word.specs.Words.{OneOf};
ghost use Rattle.kb_word.specs.WordOrders.{Below};
ghost use Rattle.kb_word.specs.Rewriting.{AreDecreasing};

use crate::rule::Rule;
use kb_word::{Memory, WordOrder};
use std::alloc::Global;
use std::marker::Model;

/// A list of rules that decrease along an order of words. The order of the list counts too: where several left sides
/// end at one place, the first is used.
#[derive(Debug, Drop)]
pub struct Rules {
    order: WordOrder,
    rules: Vec<Rule>,
}

impl Model for Rules {
    ghost use Rattle.kb_word.specs.WordOrders.{Below};
    ghost use Rattle.kb_word.specs.Rewriting.{AreDecreasing};
    ghost use Rattle.kb_rules.specs.OrderedRules.{OrderedRules};

    ghost Value = { OrderedRules };

    ghost view = { λ list. record { order = list.order; rules = list.rules.items } };

    ghost invariant = { λ list. AreDecreasing (Below list.order) list.rules.items };
}

impl Rules {
    /// No rules, for an order.
    pub fn new(alloc: Global, order: WordOrder) -> Rules
        ensures order { result.order ≡ order }
        ensures rules { result.rules ≡ [] }
    {
        Rules {
            order,
            rules: Vec::new(alloc),
        }
    }

    /// The list of these rules.
    pub fn from_vec(order: WordOrder, rules: Vec<Rule>) -> Rules
        requires { AreDecreasing (Below order) rules.items }
        ensures order { result.order ≡ order }
        ensures rules { result.rules ≡ rules.items }
    {
        Rules { order, rules }
    }

    /// The rules, given back without taking memory.
    pub fn into_vec(self) -> Vec<Rule>
        ensures rules { result.items ≡ self.rules }
        ensures decreasing { AreDecreasing (Below self.order) result.items }
    {
        self.rules
    }

    /// The order along which the rules decrease.
    pub fn order(&self) -> &WordOrder
        ensures { result.now ≡ self.now.order }
    {
        &self.order
    }

    /// Adds a rule at the end.
    pub fn push(&mut self, rule: Rule) -> Result<(), Memory>
        requires { Below self.old.order rule.1 rule.0 }
        ensures ok { OnOk result (self.new.rules ≡ self.old.rules ++ rule ∷ []) }
        ensures err { OnErr result (self.new.rules ≡ self.old.rules) }
        ensures order { self.new.order ≡ self.old.order }
    {
        make_room(&mut self.rules)?;
        self.rules.push(rule)?;
        Ok(())
    }

    /// Takes the rule at an index out of the list; the others stay in their order.
    pub fn remove(&mut self, index: usize) -> Rule
        requires { index < length self.old.rules }
        ensures rule { slice_get self.old.rules index ≡ Some result }
        ensures rules { self.new.rules ≡ remove self.old.rules index }
        ensures order { self.new.order ≡ self.old.order }
    {
        self.rules.remove(index)
    }

    /// Takes the rule at an index out of the list, where the others stay in their order, and adds one at its end. It
    /// takes no memory.
    pub fn replace(&mut self, index: usize, rule: Rule) -> Rule
        requires index { index < length self.old.rules }
        requires falls { Below self.old.order rule.1 rule.0 }
        ensures rule { slice_get self.old.rules index ≡ Some result }
        ensures rules { self.new.rules ≡ remove self.old.rules index ++ rule ∷ [] }
        ensures order { self.new.order ≡ self.old.order }
    {
        let gone = self.rules.remove(index);
        let _ = self.rules.push(rule);
        gone
    }

    /// How many rules there are.
    pub fn len(&self) -> usize
        ensures { result ≡ length self.now.rules }
    {
        self.rules.len()
    }

    /// Whether there are no rules.
    pub fn is_empty(&self) -> bool
        ensures { IsTrue result ↔ (self.now.rules ≡ []) }
    {
        self.rules.is_empty()
    }

    /// The rule at an index, from 0 on.
    pub fn get(&self, index: usize) -> Option<&Rule>
        ensures rule { option_copied result ≡ slice_get self.now.rules index }
        ensures decreasing { AreDecreasing (Below self.now.order) self.now.rules }
    {
        self.rules.get(index)
    }

    /// The rules in order.
    pub fn as_slice(&self) -> &[Rule]
        ensures rules { result.now ≡ self.now.rules }
        ensures decreasing { AreDecreasing (Below self.now.order) self.now.rules }
    {
        self.rules.as_slice()
    }

    /// Whether the rule is one of the list's.
    pub fn contains(&self, rule: &Rule) -> bool
        ensures { IsTrue result ↔ OneOf self.now.rules rule.now }
    {
        for own in self.as_slice() {
            if *own == *rule {
                return true;
            }
        }
        false
    }

    /// A list of the same rules.
    pub fn copy(&self, alloc: Global) -> Result<Rules, Memory>
        ensures order { IfOk result (λ list. list.order ≡ self.now.order) }
        ensures rules { IfOk result (λ list. list.rules ≡ self.now.rules) }
    {
        let order = self.order.copy(alloc)?;
        let rules = copy_rules(alloc, self.as_slice())?;
        Ok(Rules { order, rules })
    }
}

/// Makes room for one more rule. A list that is full grows by a sixteenth of its length, so that little of its memory
/// is never used.
fn make_room(rules: &mut Vec<Rule>) -> Result<(), Memory>
    ensures { rules.new.items ≡ rules.old.items }
{
    if rules.capacity() == rules.len() {
        rules.reserve_exact(rules.len() / 16 + 4)?;
    }
    Ok(())
}

/// The same rules, in order.
fn copy_rules(alloc: Global, rules: &[Rule]) -> Result<Vec<Rule>, Memory>
    ensures { IfOk result (λ copies. copies.items ≡ rules.now) }
{
    let mut copies = Vec::with_capacity(alloc, rules.len())?;
    for rule in rules {
        copies.push(rule.copy(alloc)?)?;
    }
    Ok(copies)
}
