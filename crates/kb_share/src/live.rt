//! The live rules of a book.

ghost use Rattle.std.specs.Prelude.{◌≡◌, ◌<◌, ◌≤◌, All, IfOk, length, map};
ghost use Rattle.kb_machine.specs.States.{live_rules as rules_that_live, rule_numbered};

use crate::sound::book_is_sound;
use kb_book::Book;
use kb_machine::Line;
use kb_rules::{Reducer, Rule, Rules};
use kb_word::Memory;
use std::alloc::Global;

/// A copy of the live rules, in line order.
pub fn live_rules<R: Reducer>(alloc: Global, book: &Book<R>) -> Result<Rules, Memory>
    ensures rules { IfOk result (λ rules. rules.rules ≡ rules_that_live book.now.course.state) }
    ensures order { IfOk result (λ rules. rules.order ≡ book.now.course.problem.order) }
{
    book_is_sound(book);
    let order = book.order().copy(alloc)?;
    let rules = rules_of(alloc, book.lines(), book.live())?;
    Ok(Rules::from_vec(order, rules))
}

/// The rules of the lines that have these numbers.
fn rules_of(alloc: Global, lines: &[Line], numbers: &[u32]) -> Result<Vec<Rule>, Memory>
    requires { All (λ k. (0 < k) × (k ≤ length lines.now)) numbers.now }
    ensures { IfOk result (λ rules. rules.items ≡ map (rule_numbered lines.now) numbers.now) }
{
    let mut rules = Vec::with_capacity(alloc, numbers.len())?;
    for number in numbers {
        rules.push(rule_of(alloc, &lines[*number as usize - 1])?)?;
    }
    Ok(rules)
}

/// The rule of a line.
fn rule_of(alloc: Global, line: &Line) -> Result<Rule, Memory>
    ensures { IfOk result (λ rule. rule ≡ (line.now.left, line.now.right)) }
{
    let left = line.left.copy(alloc)?;
    let right = line.right.copy(alloc)?;
    Ok(Rule::new(left, right))
}
