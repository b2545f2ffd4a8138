//! Pairs of words that are the same element.

ghost use Rattle.std.specs.Prelude.{◌≡◌, IfOk};
ghost use Rattle.kb_kept.specs.Listed.{rule_equalities};

use kb_rules::Rules;
use kb_word::{Letter, Memory, Word};
use std::alloc::Global;

/// Words u and v of which u followed by x is the same element as v, or u itself where there is no x.
#[derive(Debug, Drop)]
pub struct Equality {
    /// The first word.
    pub u: Word,
    /// The second word.
    pub v: Word,
    /// The generator that follows the first word.
    pub x: Option<Letter>,
}

/// The equalities of rules, in order: both sides of a rule are the same element.
pub fn rule_equalities(alloc: Global, rules: &Rules) -> Result<Vec<Equality>, Memory>
    ensures { IfOk result (λ equalities. equalities.items ≡ rule_equalities rules.now.rules) }
{
    let listed = rules.as_slice();
    let mut equalities = Vec::with_capacity(alloc, listed.len())?;
    for rule in listed {
        let equality = Equality {
            u: rule.left().copy(alloc)?,
            v: rule.right().copy(alloc)?,
            x: None,
        };
        equalities.push(equality)?;
    }
    Ok(equalities)
}
