//! The lines of a log as rules.

ghost use Rattle.std.specs.Prelude.{◌≡◌, ◌≤◌, ◌^◌, IfOk, length};
ghost use Rattle.kb_word.specs.WordOrders.{Below};
ghost use Rattle.kb_word.specs.Presentations.{parts_of};
ghost use Rattle.kb_word.specs.Rewriting.{AreDecreasing};
ghost use Rattle.kb_machine.specs.Lines.{rule_of, rules_of};
ghost use Rattle.kb_bylog.specs.LogLines.{IsJustifiedBy, lines_of};

use kb_index::Index;
use kb_machine::Line;
use kb_proof::Log;
use kb_rules::{Reducer, Rule, Rules};
use kb_word::{Memory, Presentation, WordOrder};
use std::alloc::Global;

/// The index of the lines of a justified log, of which there are so few that their confluence can be checked.
pub fn index_of(alloc: Global, presentation: &Presentation, log: &Log) -> Result<Index, Memory>
    requires justified { IsJustifiedBy (parts_of presentation.now) log.now }
    requires few { length log.now.lines.items ≤ 2 ^ 31 }
    ensures rules { IfOk result (λ index. index.rules ≡ lines_of log.now) }
    ensures few { IfOk result (λ index. length index.rules ≤ 2 ^ 31) }
{
    let order = presentation.order.copy(alloc)?;
    let rules = line_rules(alloc, order, log.lines.as_slice())?;
    Index::of(alloc, &rules)
}

/// The rules of lines, in their order.
fn line_rules(alloc: Global, order: WordOrder, lines: &[Line]) -> Result<Rules, Memory>
    requires { AreDecreasing (Below order) (rules_of lines.now) }
    ensures { IfOk result (λ rules. rules.rules ≡ rules_of lines.now) }
{
    let mut rules = Rules::new(alloc, order);
    for line in lines {
        let rule = line_rule(alloc, line)?;
        rules.push(rule)?;
    }
    Ok(rules)
}

/// The rule of a line.
fn line_rule(alloc: Global, line: &Line) -> Result<Rule, Memory>
    ensures { IfOk result (λ rule. rule ≡ rule_of line.now) }
{
    let left = line.left.copy(alloc)?;
    let right = line.right.copy(alloc)?;
    Ok(Rule::new(left, right))
}
