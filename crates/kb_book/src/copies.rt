//! Copies of halts, and of the rules of lines.

ghost use Rattle.std.specs.Prelude.{◌≡◌, IfOk};
ghost use Rattle.kb_machine.specs.Lines.{rule_of};
ghost use Rattle.kb_book.specs.Answers.{IsByRules, IsByLength, IsCopyOf};

use kb_machine::{Halt, Line, LogStep};
use kb_rules::Rule;
use kb_word::{Memory, Word};
use std::alloc::Global;

/// The rule of a line.
pub(crate) fn copy_rule(alloc: Global, line: &Line) -> Result<Rule, Memory>
    ensures { IfOk result (λ rule. rule ≡ rule_of line.now) }
{
    let left = line.left.copy(alloc)?;
    let right = line.right.copy(alloc)?;
    Ok(Rule::new(left, right))
}

/// A halt with the same words and derivations.
pub(crate) fn copy_halt(alloc: Global, halt: &Halt) -> Result<Halt, Memory>
    ensures { IfOk result (IsCopyOf halt.now) }
{
    match halt {
        Halt::Rules {
            u,
            v,
            first_steps,
            second_steps,
        } => copy_rules(alloc, u, v, first_steps, second_steps),
        Halt::Length {
            u,
            v,
            first_steps,
            second_steps,
        } => copy_length(alloc, u, v, first_steps, second_steps),
    }
}

/// A halt by the number of lines, with the same words and derivations.
fn copy_rules(
    alloc: Global,
    u: &Word,
    v: &Word,
    first_steps: &[LogStep],
    second_steps: &[LogStep],
) -> Result<Halt, Memory>
    ensures { IfOk result (IsByRules u.now v.now first_steps.now second_steps.now) }
{
    Ok(Halt::Rules {
        u: u.copy(alloc)?,
        v: v.copy(alloc)?,
        first_steps: Vec::from_slice(alloc, first_steps)?,
        second_steps: Vec::from_slice(alloc, second_steps)?,
    })
}

/// A halt by the number of letters, with the same words and derivations.
fn copy_length(
    alloc: Global,
    u: &Word,
    v: &Word,
    first_steps: &[LogStep],
    second_steps: &[LogStep],
) -> Result<Halt, Memory>
    ensures { IfOk result (IsByLength u.now v.now first_steps.now second_steps.now) }
{
    Ok(Halt::Length {
        u: u.copy(alloc)?,
        v: v.copy(alloc)?,
        first_steps: Vec::from_slice(alloc, first_steps)?,
        second_steps: Vec::from_slice(alloc, second_steps)?,
    })
}
