//! The comparison of two languages.

ghost use Rattle.std.specs.Prelude.{◌≡◌, ℕ, Err, IsOk, IfOk, IfSome, IfNone};
ghost use Rattle.kb_fsa.specs.Counted.{CountedOr};
ghost use Rattle.kb_explore.specs.declared.det.Det.TheVariants.{TooManyStates};
ghost use Rattle.kb_fsabool.specs.Answers.{IsComparison};
ghost use Rattle.kb_fsabool.specs.Products.{IsFirstAccepting, NoneAccepts};

use crate::connective::Connective;
use crate::equality::Equality;
use crate::product::Product;
use kb_explore::{Det, explore, text_to};
use kb_fsa::{Fsa, Symbols, Table};
use std::alloc::Global;

/// Whether the languages are the same, and otherwise the shortlex least text in exactly one.
pub fn equal(alloc: Global, one: &Fsa, two: &Fsa, limit: u32) -> Result<Equality, Det>
    requires { one.now.alphabet ≡ two.now.alphabet }
    ensures comparison { IfOk result (IsComparison one.now two.now) }
    ensures few { IsOk result → ¬ CountedOr one.now.table two.now.table limit }
    ensures many { (most : ℕ) → result ≡ Err (TooManyStates most)
        → (most ≡ limit) × CountedOr one.now.table two.now.table limit }
{
    let machine = Product {
        connective: Connective::Xor,
        one,
        two,
    };
    let exploration = explore(alloc, &machine, limit)?;
    match first_accepting(&exploration.table) {
        Some(state) => {
            let text = text_to(alloc, exploration.origins.as_slice(), state)?;
            Ok(Equality::Differ(Symbols::from_vec(text)))
        }
        None => Ok(Equality::Equal),
    }
}

/// The accepting state of the least number.
fn first_accepting(table: &Table) -> Option<u32>
    ensures some { IfSome result (IsFirstAccepting table.now) }
    ensures none { IfNone result (NoneAccepts table.now) }
{
    for state in 1..=table.len() {
        if table.is_accepting(state) {
            return Some(state);
        }
    }
    None
}
