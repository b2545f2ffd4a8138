//! The pairs of words that origins name.

ghost use Rattle.std.specs.Prelude.{◌≡◌, Some, OnOk};
ghost use Rattle.kb_word.specs.Words.{Pair};
ghost use Rattle.kb_machine.specs.Lines.{numbered, rules_of, IsPairOf, IsCriticalPair};
ghost use Rattle.kb_book.specs.Normal.{HasPair};

use crate::numbers::line_of;
use kb_machine::{Line, Origin};
use kb_overlap::PairWorkspace;
use kb_word::{Memory, Word};

/// Puts in the pair that the origin names.
pub(crate) fn put_pair(
    relations: &[(Word, Word)],
    lines: &[Line],
    origin: Origin,
    pair: &mut PairWorkspace,
) -> Result<(), Memory>
    requires { HasPair relations.now (rules_of lines.now) origin }
    ensures { OnOk result (IsPairOf relations.now (rules_of lines.now) origin pair.new) }
{
    match origin {
        Origin::Relation(k) => put_relation(relations, k, pair),
        Origin::Overlap {
            first,
            second,
            place,
        } => put_critical_pair(lines, first, second, place, pair),
        Origin::Killed(k) => put_sides(lines, k, pair),
        Origin::Shortened(k) => put_sides(lines, k, pair),
    }
}

/// Puts in the sides of a relation.
fn put_relation(relations: &[(Word, Word)], k: u32, pair: &mut PairWorkspace) -> Result<(), Memory>
    requires { (relation : Pair) × (numbered relations.now k ≡ Some relation) }
    ensures { OnOk result (numbered relations.now k ≡ Some pair.new) }
{
    let relation = &relations[k as usize - 1];
    pair.put(&relation.0, &relation.1)
}

/// Puts in the sides of a line.
fn put_sides(lines: &[Line], k: u32, pair: &mut PairWorkspace) -> Result<(), Memory>
    requires { (rule : Pair) × (numbered (rules_of lines.now) k ≡ Some rule) }
    ensures { OnOk result (numbered (rules_of lines.now) k ≡ Some pair.new) }
{
    let line = line_of(lines, k);
    pair.put(&line.left, &line.right)
}

/// Puts in the critical pair of two lines.
fn put_critical_pair(
    lines: &[Line],
    i: u32,
    j: u32,
    place: u32,
    pair: &mut PairWorkspace,
) -> Result<(), Memory>
    requires { (critical : Pair) × IsCriticalPair (rules_of lines.now) i j place critical }
    ensures { OnOk result (IsCriticalPair (rules_of lines.now) i j place pair.new) }
{
    let first = line_of(lines, i);
    let second = line_of(lines, j);
    pair.put_critical_pair(
        &first.left,
        &first.right,
        &second.left,
        &second.right,
        u64::from(place),
    )
}
