//! The reduced complete system of confluent rules.

ghost use Rattle.std.specs.Prelude.{◌≡◌, ◌↔◌, IfOk};
ghost use Rattle.kb_word.specs.WordOrders.{Below};
ghost use Rattle.kb_word.specs.Overlap.{IsConfluent};
ghost use Rattle.kb_reduced.specs.Minimal.{HaveOneRightSide, IsSortedFrom};
ghost use Rattle.kb_reduced.specs.Reduced.{IsReducedComplete};

use crate::minimal::minimal_rules;
use kb_rules::{Reducer, Rule, Rules};
use kb_word::{Memory, Order, WordOrder};
use std::alloc::Global;
use std::cmp::Ordering;

/// The reduced complete system of the congruence of confluent rules.
pub fn reduced_complete<R: Reducer>(
    alloc: Global,
    rules: &Rules,
    reducer: &R,
) -> Result<Rules, Memory>
    requires reducer { R.rules reducer.now ≡ rules.now.rules }
    requires confluent { IsConfluent rules.now.rules }
    ensures order { IfOk result (λ reduced. reduced.order ≡ rules.now.order) }
    ensures reduced { IfOk result
        (λ reduced. IsReducedComplete (Below rules.now.order) rules.now.rules reduced.rules) }
{
    let minimal = minimal_rules(alloc, rules.as_slice(), reducer)?;
    let sorted = in_order(rules.order(), minimal);
    let order = rules.order().copy(alloc)?;
    Ok(Rules::from_vec(order, sorted))
}

/// The rules in the order of their left sides, each of them once.
fn in_order(order: &WordOrder, mut rules: Vec<Rule>) -> Vec<Rule>
    requires { HaveOneRightSide rules.items }
    ensures { IsSortedFrom (Below order.now) rules.items result.items }
{
    rules.sort_unstable_by(|one, other| compare_left_sides(order, one, other));
    rules.dedup();
    rules
}

/// How the left side of one rule compares with that of another.
fn compare_left_sides(order: &WordOrder, one: &Rule, other: &Rule) -> Ordering
    ensures { (result ≡ Ordering.Less) ↔ Below order.now one.now.0 other.now.0 }
{
    if order.less(one.left(), other.left()) {
        Ordering::Less
    } else if one.left() == other.left() {
        Ordering::Equal
    } else {
        Ordering::Greater
    }
}
