//! The oriented relations of a presentation, as rules.

ghost use Rattle.std.specs.Prelude.{◌≡◌, [], ◌∷◌, ◌++◌, IfOk, OnOk, IfSome, None, List};
ghost use Rattle.kb_word.specs.Words.{Pair};
ghost use Rattle.kb_word.specs.WordOrders.{Below};
ghost use Rattle.kb_word.specs.declared.word_order.WordOrder.{WordOrder};
ghost use Rattle.kb_word.specs.Congruence.{SameCongruence};
ghost use Rattle.kb_word.specs.Rewriting.{AreDecreasing};
ghost use Rattle.kb_word.specs.Relations.{relations_of, IsOrientation, Orients, AreOriented};

use indexmap::IndexSet;
use kb_rules::{Rule, Rules};
use kb_word::{Memory, Order, Presentation, Word, WordOrder};
use std::alloc::Global;

/// The defining relations of a presentation as rules, in order: each is turned so that its greater
/// side by the presentation's order is on the left. A relation with equal sides gives none, and no rule is repeated.
pub fn oriented(alloc: Global, presentation: &Presentation) -> Result<Rules, Memory>
    ensures oriented { IfOk result (λ rules. AreOriented (Below presentation.now.order)
        (relations_of presentation.now.inv presentation.now.eqs) rules.rules) }
    ensures order { IfOk result (λ rules. rules.order ≡ presentation.now.order) }
{
    let set = oriented_set(alloc, presentation)?;
    let order = presentation.order.copy(alloc)?;
    oriented_rules_decrease();
    rules_of(alloc, order, set)
}

/// The rules that the relations give, each once, in order.
fn oriented_set(alloc: Global, presentation: &Presentation) -> Result<IndexSet<Rule>, Memory>
    ensures { IfOk result (λ set. AreOriented (Below presentation.now.order)
        (relations_of presentation.now.inv presentation.now.eqs) set.keys) }
{
    let mut set = IndexSet::new(alloc);
    for (left, right) in presentation.relations(alloc)? {
        insert_relation(&presentation.order, &mut set, left, right)?;
    }
    Ok(set)
}

/// Adds the rule that a relation gives by an order, unless it is there.
fn insert_relation(
    order: &WordOrder,
    set: &mut IndexSet<Rule>,
    left: Word,
    right: Word,
) -> Result<(), Memory>
    ensures { OnOk result ((added : List Pair)
        × Orients (Below order.now) set.old.keys ((left, right) ∷ []) added
        × (set.new.keys ≡ set.old.keys ++ added)) }
{
    if let Some(rule) = orientation(order, left, right) {
        set.insert(rule)?;
    }
    Ok(())
}

/// The rules of a set, in the order in which they were inserted.
fn rules_of(alloc: Global, order: WordOrder, set: IndexSet<Rule>) -> Result<Rules, Memory>
    requires { AreDecreasing (Below order) set.keys }
    ensures order { IfOk result (λ rules. rules.order ≡ order) }
    ensures rules { IfOk result (λ rules. rules.rules ≡ set.keys) }
{
    let mut rules = Rules::new(alloc, order);
    for rule in set {
        rules.push(rule)?;
    }
    Ok(rules)
}

/// The rule that a relation gives by an order, and none exactly where its sides are equal.
fn orientation(order: &WordOrder, left: Word, right: Word) -> Option<Rule>
    ensures some { IfSome result (IsOrientation (Below order.now) (left, right)) }
    ensures none { result ≡ None → left ≡ right }
{
    if order.less(&right, &left) {
        Some(Rule::new(left, right))
    } else if order.less(&left, &right) {
        Some(Rule::new(right, left))
    } else {
        None
    }
}

/// The oriented relations generate the congruence that the relations generate.
pub fn oriented_relations_keep_the_congruence()
    ensures { (order : WordOrder) (relations rules : List Pair)
        → AreOriented (Below order) relations rules → SameCongruence rules relations }
{}

/// Relations are oriented in one way.
pub fn oriented_relations_are_one_list()
    ensures { (order : WordOrder) (relations one other : List Pair)
        → AreOriented (Below order) relations one → AreOriented (Below order) relations other
        → one ≡ other }
{}

/// Each oriented relation's right side is less than its left side.
pub fn oriented_rules_decrease()
    ensures { (order : WordOrder) (relations rules : List Pair)
        → AreOriented (Below order) relations rules → AreDecreasing (Below order) rules }
{}
