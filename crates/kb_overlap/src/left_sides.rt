//! The left sides of rules in lexicographic order, and their overlaps with a word.

ghost use Rattle.std.specs.Prelude.{◌≡◌, IfOk, OnOk, length};
ghost use Rattle.kb_overlap.specs.Overlapping.{AreOverlaps};
ghost use Rattle.kb_overlap.specs.Sides.{IsListed};

use crate::walk::{Side, add_overlaps};
use kb_rules::Rule;
use kb_word::{Memory, Word};
use std::alloc::Global;
use std::marker::Model;

/// An overlap of a word with the left side of a rule. Its numbers are indices, so that each overlap has some: a list of
/// overlaps is there for one word at a time, and takes little memory.
#[derive(Clone, Copy, Debug, PartialEq, Eq, PartialOrd, Ord)]
pub struct Overlap {
    /// The index of the rule in its list.
    pub rule: usize,
    /// The place of the word at which the left side begins.
    pub place: usize,
}

/// The left sides of a list of rules, by which all overlaps of a word with them are found.
#[derive(Drop)]
pub struct LeftSides<'r> {
    rules: &'r [Rule],
    sides: Vec<Side<'r>>,
}

impl<'r> Model for LeftSides<'r> {
    ghost use Rattle.std.specs.Prelude.{List};
    ghost use Rattle.kb_word.specs.Words.{Pair};
    ghost use Rattle.kb_overlap.specs.Sides.{AreSortedSides};

    ghost Value = { List Pair };

    ghost view = { λ left_sides. left_sides.rules.now };

    ghost invariant = { λ left_sides. AreSortedSides left_sides.rules.now left_sides.sides.items };
}

impl<'r> LeftSides<'r> {
    /// The left sides of these rules.
    pub fn of(alloc: Global, rules: &'r [Rule]) -> Result<LeftSides<'r>, Memory>
        ensures { IfOk result (λ left_sides. left_sides ≡ rules.now) }
    {
        let mut sides = listed(alloc, rules)?;
        sides.sort_by(|side, other| side.letters.cmp(other.letters))?;
        Ok(LeftSides { rules, sides })
    }

    /// Finds all overlaps of a word with the left sides. What the list held is gone; where memory runs out it
    /// holds anything.
    pub fn overlaps(&self, l: &Word, found: &mut Vec<Overlap>) -> Result<(), Memory>
        ensures { OnOk result (AreOverlaps self.now l.now found.new.items) }
    {
        found.clear();
        add_overlaps(&self.sides, l.letters(), found)?;
        found.sort_unstable();
        Ok(())
    }
}

/// The left sides in the order of their rules.
fn listed<'r>(alloc: Global, rules: &'r [Rule]) -> Result<Vec<Side<'r>>, Memory>
    ensures { IfOk result (λ sides. IsListed rules.now (length rules.now) sides.items) }
{
    let mut sides = Vec::with_capacity(alloc, rules.len())?;
    for (rule, sided) in rules.iter().enumerate() {
        sides.push(Side {
            letters: sided.left().letters(),
            rule,
        })?;
    }
    Ok(sides)
}
