//! The pairs that origins name, and the faults of origins.

ghost use Rattle.std.specs.Prelude.{◌≡◌, ◌≢◌, ◌↔◌, ◌<◌, List, length, IfOk, IfSome, IfNone, IsTrue, IsFalse, Some};
ghost use Rattle.kb_word.specs.Words.{Pair};
ghost use Rattle.kb_machine.specs.Justified.{HasAnotherFactor};
ghost use Rattle.kb_machine.specs.Lines.{numbered, rules_of, IsCriticalPair, IsPairOf};
ghost use Rattle.kb_proof.specs.Checking.{AreMarks, IsAnotherAt, IsNotAlone, MayName};
ghost use Rattle.kb_proof.specs.Verifying.{HasOriginFault};

use crate::verifying::marks::Marks;
use crate::verifying::numbered::{line_numbered, relation_numbered};
use kb_machine::{Line, Origin};
use kb_overlap::{meets, pair_at};
use kb_word::{Memory, Word, copy_pair, factor_at};
use std::alloc::Global;

/// The pair that an origin names behind these lines, and `None` where it has a fault.
pub(crate) fn pair_of(
    alloc: Global,
    relations: &[(Word, Word)],
    earlier: &[Line],
    marks: &Marks,
    origin: Origin,
) -> Result<Option<(Word, Word)>, Memory>
    requires { AreMarks earlier.now marks.now }
    ensures some { IfOk result
        (λ found. IfSome found (MayName relations.now earlier.now origin)) }
    ensures none { IfOk result
        (λ found. IfNone found (HasOriginFault relations.now earlier.now origin)) }
{
    let Some(pair) = named_pair(alloc, relations, earlier, origin)? else {
        return Ok(None);
    };
    if marks.have(origin) {
        return Ok(None);
    }
    if is_killed_alone(earlier, origin) {
        return Ok(None);
    }
    Ok(Some(pair))
}

/// The pair that an origin names.
fn named_pair(
    alloc: Global,
    relations: &[(Word, Word)],
    earlier: &[Line],
    origin: Origin,
) -> Result<Option<(Word, Word)>, Memory>
    ensures some { IfOk result
        (λ found. IfSome found (IsPairOf relations.now (rules_of earlier.now) origin)) }
    ensures none { IfOk result (λ found. IfNone found
        ((pair : Pair) → ¬ IsPairOf relations.now (rules_of earlier.now) origin pair)) }
{
    match origin {
        Origin::Relation(number) => relation_pair(alloc, relations, number),
        Origin::Overlap {
            first,
            second,
            place,
        } => overlap_pair(alloc, earlier, first, second, place),
        Origin::Killed(number) => line_pair(alloc, earlier, number),
        Origin::Shortened(number) => line_pair(alloc, earlier, number),
    }
}

/// The words of a relation.
fn relation_pair(
    alloc: Global,
    relations: &[(Word, Word)],
    number: u32,
) -> Result<Option<(Word, Word)>, Memory>
    ensures some { IfOk result
        (λ found. IfSome found (λ pair. numbered relations.now number ≡ Some pair)) }
    ensures none { IfOk result
        (λ found. IfNone found ((pair : Pair) → numbered relations.now number ≢ Some pair)) }
{
    let Some(relation) = relation_numbered(relations, number) else {
        return Ok(None);
    };
    Ok(Some(copy_pair(alloc, relation)?))
}

/// The sides of a line.
fn line_pair(alloc: Global, lines: &[Line], number: u32) -> Result<Option<(Word, Word)>, Memory>
    ensures some { IfOk result
        (λ found. IfSome found (λ pair. numbered (rules_of lines.now) number ≡ Some pair)) }
    ensures none { IfOk result (λ found. IfNone found
        ((pair : Pair) → numbered (rules_of lines.now) number ≢ Some pair)) }
{
    let Some(line) = line_numbered(lines, number) else {
        return Ok(None);
    };
    let left = line.left.copy(alloc)?;
    let right = line.right.copy(alloc)?;
    Ok(Some((left, right)))
}

/// The critical pair of two lines, if their left sides meet at the place.
fn overlap_pair(
    alloc: Global,
    lines: &[Line],
    first: u32,
    second: u32,
    place: u32,
) -> Result<Option<(Word, Word)>, Memory>
    ensures some { IfOk result
        (λ found. IfSome found (IsCriticalPair (rules_of lines.now) first second place)) }
    ensures none { IfOk result (λ found. IfNone found
        ((pair : Pair) → ¬ IsCriticalPair (rules_of lines.now) first second place pair)) }
{
    let Some(one) = line_numbered(lines, first) else {
        return Ok(None);
    };
    let Some(other) = line_numbered(lines, second) else {
        return Ok(None);
    };
    if first == second && place == 0 {
        return Ok(None);
    }
    if !meets(&one.left, &other.left, place as u64) {
        return Ok(None);
    }
    Ok(Some(pair_at(
        alloc,
        &one.left,
        &one.right,
        &other.left,
        &other.right,
        place as u64,
    )?))
}

/// Whether the origin kills a line of whose left side no other one is a factor.
fn is_killed_alone(lines: &[Line], origin: Origin) -> bool
    ensures yes { IsTrue result
        → (relations : List Pair) → HasOriginFault relations lines.now origin }
    ensures no { IsFalse result → IsNotAlone (rules_of lines.now) origin }
{
    match origin {
        Origin::Killed(number) => !has_another_factor(lines, number),
        _ => false,
    }
}

/// Whether the left side of another line is a factor of that of the line with this number. The other one came later,
/// as a rule, so that the newest line is tried first.
fn has_another_factor(lines: &[Line], number: u32) -> bool
    ensures { IsTrue result ↔ HasAnotherFactor (rules_of lines.now) number }
{
    let Some(own) = line_numbered(lines, number) else {
        return false;
    };
    for index in (0..lines.len()).rev() {
        if is_another(lines, index, number, &own.left) {
            return true;
        }
    }
    false
}

/// Whether the line at the index has another number, and a left side that is a factor of the word.
fn is_another(lines: &[Line], index: usize, number: u32, word: &Word) -> bool
    requires { index < length lines.now }
    ensures { IsTrue result ↔ IsAnotherAt (rules_of lines.now) number word.now index }
{
    if index as u64 + 1 == u64::from(number) {
        return false;
    }
    factor_at(word, &lines[index].left).is_some()
}
