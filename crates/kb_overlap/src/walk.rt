//! The walk over the left sides along the letters of a word.

ghost use Rattle.std.specs.Prelude.{◌≡◌, ◌++◌, [], OnOk, map, slice_get};
ghost use Rattle.kb_overlap.specs.Sides.{Adds, Collects, InOrder, at_place, with_letter};

use crate::left_sides::Overlap;
use kb_word::{Letter, Memory};

/// The letters of a left side, and the index of its rule.
#[derive(Drop)]
pub(crate) struct Side<'r> {
    pub(crate) letters: &'r [Letter],
    pub(crate) rule: usize,
}

impl<'r> Side<'r> {
    /// The letter at a depth, or none past the end.
    fn letter_at(&self, depth: usize) -> Option<Letter>
        ensures { result ≡ slice_get self.now.letters.now depth }
    {
        self.letters.get(depth).copied()
    }
}

/// Adds each overlap of the word of these letters with the left sides.
pub(crate) fn add_overlaps(
    sides: &[Side],
    letters: &[Letter],
    found: &mut Vec<Overlap>,
) -> Result<(), Memory>
    requires order { InOrder 0 sides.now }
    requires empty { found.old.items ≡ [] }
    ensures { OnOk result (Collects sides.now letters.now found.new.items) }
{
    for place in 0..letters.len() {
        add_at_place(sides, &letters[place..], place, found)?;
    }
    Ok(())
}

/// Adds the overlaps at one place of the word, whose letters from there on are these: with each left side
/// that begins with them, or that they begin with.
fn add_at_place(
    sides: &[Side],
    letters: &[Letter],
    place: usize,
    found: &mut Vec<Overlap>,
) -> Result<(), Memory>
    requires { InOrder 0 sides.now }
    ensures { OnOk result (Adds sides.now letters.now place found.old.items found.new.items) }
{
    // The left sides that begin with the letters read so far.
    let mut begun = sides;
    for (depth, letter) in letters.iter().enumerate() {
        if begun.is_empty() {
            return Ok(());
        }
        add(part_with(begun, depth, None), place, found)?;
        begun = part_with(begun, depth, Some(*letter));
    }
    add(begun, place, found)
}

/// Adds an overlap at this place with each of the left sides.
fn add(sides: &[Side], place: usize, found: &mut Vec<Overlap>) -> Result<(), Memory>
    ensures { OnOk result (found.new.items ≡ found.old.items ++ map (at_place place) sides.now) }
{
    for side in sides {
        found.push(Overlap {
            rule: side.rule,
            place,
        })?;
    }
    Ok(())
}

/// The part of the left sides at whose depth this letter stands, or that end there where it is none.
fn part_with<'s, 'r>(sides: &'s [Side<'r>], depth: usize, letter: Option<Letter>) -> &'s [Side<'r>]
    requires { InOrder depth sides.now }
    ensures { result.now ≡ with_letter depth letter sides.now }
{
    let part = &sides[sides.partition_point(|side| side.letter_at(depth) < letter)..];
    &part[..part.partition_point(|side| side.letter_at(depth) <= letter)]
}
