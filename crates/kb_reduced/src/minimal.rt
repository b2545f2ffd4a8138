//! The rules of the reduced system, found among confluent rules by their left sides.

ghost use Rattle.std.specs.Prelude.{◌≡◌, ◌↔◌, ◌-◌, ◌<◌, ◌^◌, IsTrue, IfOk, OnOk, All, length, take, drop};
ghost use Rattle.kb_word.specs.Words.{OneOf};
ghost use Rattle.kb_word.specs.Rewriting.{IsIrreducible};
ghost use Rattle.kb_reduced.specs.Minimal.{AddsMinimal, HasMinimal, PartsAreIrreducible};

use kb_rules::{Reducer, Rule};
use kb_word::{Letter, Memory, Word};
use std::alloc::Global;

/// The left sides whose parts are irreducible, with their normal forms. A left side that two rules have comes twice.
pub fn minimal_rules<R: Reducer>(
    alloc: Global,
    rules: &[Rule],
    reducer: &R,
) -> Result<Vec<Rule>, Memory>
    requires reducer { R.rules reducer.now ≡ rules.now }
    ensures { IfOk result (λ minimal. HasMinimal rules.now (length rules.now) minimal.items) }
{
    // Mostly all are minimal, and where a completion ends memory counts most.
    let mut minimal = Vec::with_capacity(alloc, rules.len())?;
    for rule in rules {
        add_minimal(alloc, rule, reducer, &mut minimal)?;
    }
    Ok(minimal)
}

/// Adds the rule's left side with its normal form, where its parts are irreducible.
fn add_minimal<R: Reducer>(
    alloc: Global,
    rule: &Rule,
    reducer: &R,
    minimal: &mut Vec<Rule>,
) -> Result<(), Memory>
    ensures { OnOk result
        (AddsMinimal (R.rules reducer.now) rule.now.0 minimal.old.items minimal.new.items) }
{
    let left = rule.left();
    if has_irreducible_parts(alloc, left, reducer)? {
        let normal = reducer.nf(alloc, left)?;
        // What is kept of it takes no more memory than its letters.
        let right = normal.copy(alloc)?;
        minimal.push(Rule::new(left.copy(alloc)?, right))?;
    }
    Ok(())
}

/// Whether the word is irreducible without its first letter, and without its last.
fn has_irreducible_parts<R: Reducer>(alloc: Global, w: &Word, reducer: &R) -> Result<bool, Memory>
    ensures { IfOk result
        (λ answer. IsTrue answer ↔ PartsAreIrreducible (OneOf (R.rules reducer.now)) w.now) }
{
    let letters = w.letters();
    if !is_irreducible(alloc, behind_first(letters), reducer)? {
        return Ok(false);
    }
    is_irreducible(alloc, before_last(letters), reducer)
}

/// The letters but the first.
fn behind_first(letters: &[Letter]) -> &[Letter]
    ensures { result.now ≡ drop 1 letters.now }
{
    letters.get(1..).unwrap_or(&[])
}

/// The letters but the last.
fn before_last(letters: &[Letter]) -> &[Letter]
    ensures { result.now ≡ take (length letters.now - 1) letters.now }
{
    &letters[..letters.len().saturating_sub(1)]
}

/// Whether the word of these letters is irreducible.
fn is_irreducible<R: Reducer>(
    alloc: Global,
    letters: &[Letter],
    reducer: &R,
) -> Result<bool, Memory>
    requires { All (λ letter. letter < 2 ^ 16) letters.now }
    ensures { IfOk result
        (λ answer. IsTrue answer ↔ IsIrreducible (OneOf (R.rules reducer.now)) letters.now) }
{
    let word = Word::from_vec(Vec::from_slice(alloc, letters)?);
    Ok(reducer.nf(alloc, &word)? == word)
}
