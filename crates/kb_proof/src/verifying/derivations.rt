//! Whether the sides of a line come by its derivations from the pair of its origin.

ghost use Rattle.std.specs.Prelude.{◌≡◌, ◌↔◌, ◌⊎◌, IfOk, IsTrue};
ghost use Rattle.kb_machine.specs.Lines.{rules_of};
ghost use Rattle.kb_proof.specs.Checking.{DerivationsSay};
ghost use Rattle.kb_proof.specs.Printable.{IsShortening};

use crate::verified::Why;
use crate::verifying::replay::replay;
use kb_machine::{Line, Origin};
use kb_word::{Memory, Word};
use std::alloc::Global;

/// What is wrong with the derivations of a line whose origin names this pair.
pub(crate) fn derivations_fault(
    alloc: Global,
    earlier: &[Line],
    pair: (Word, Word),
    line: &Line,
) -> Result<Option<Why>, Memory>
    ensures { IfOk result (DerivationsSay (rules_of earlier.now) pair line.now) }
{
    match line.origin {
        Origin::Shortened(_) => shortened_fault(alloc, earlier, pair, line),
        _ => pair_fault(alloc, earlier, pair, line),
    }
}

/// What is wrong with the derivations from both words of the pair.
fn pair_fault(
    alloc: Global,
    earlier: &[Line],
    pair: (Word, Word),
    line: &Line,
) -> Result<Option<Why>, Memory>
    requires { ¬ IsShortening line.now.origin }
    ensures { IfOk result (DerivationsSay (rules_of earlier.now) pair line.now) }
{
    let (mut first, mut second) = pair;
    if !replay(alloc, earlier, line.first_steps.as_slice(), &mut first)? {
        return Ok(Some(Why::Step));
    }
    if !replay(alloc, earlier, line.second_steps.as_slice(), &mut second)? {
        return Ok(Some(Why::Step));
    }
    if !are_sides(&first, &second, line) {
        return Ok(Some(Why::Result));
    }
    Ok(None)
}

/// Whether the words are the sides of the line, in one order or the other.
fn are_sides(one: &Word, other: &Word, line: &Line) -> bool
    ensures { IsTrue result ↔ (((one.now ≡ line.now.left) × (other.now ≡ line.now.right))
        ⊎ ((one.now ≡ line.now.right) × (other.now ≡ line.now.left))) }
{
    are_same(one, other, &line.left, &line.right) || are_same(one, other, &line.right, &line.left)
}

/// Whether both words are the same as two others.
fn are_same(one: &Word, other: &Word, first: &Word, second: &Word) -> bool
    ensures { IsTrue result ↔ ((one.now ≡ first.now) × (other.now ≡ second.now)) }
{
    *one == *first && *other == *second
}

/// What is wrong with a line that was shortened, where the pair has the sides of the line before.
fn shortened_fault(
    alloc: Global,
    earlier: &[Line],
    pair: (Word, Word),
    line: &Line,
) -> Result<Option<Why>, Memory>
    requires { IsShortening line.now.origin }
    ensures { IfOk result (DerivationsSay (rules_of earlier.now) pair line.now) }
{
    let (left, mut right) = pair;
    let is_unchanged = right == line.right;
    if !line.second_steps.is_empty() {
        return Ok(Some(Why::Step));
    }
    if !replay(alloc, earlier, line.first_steps.as_slice(), &mut right)? {
        return Ok(Some(Why::Step));
    }
    if is_unchanged {
        return Ok(Some(Why::Result));
    }
    if !are_same(&left, &right, &line.left, &line.right) {
        return Ok(Some(Why::Result));
    }
    Ok(None)
}
