//! Lists side by side in one array.

ghost use Rattle.std.specs.Prelude.{◌≡◌, ◌≤◌, ◌<◌, ◌++◌, ◌∷◌, [], ◌+◌, length, IfOk, IfSome, OnOk, OnErr, slice_get};
ghost use Rattle.std.specs.Option.{option_map};
ghost use Rattle.std.specs.List.{slice_range};
ghost use Rattle.kb_ragged.specs.Cuts.{cut, AreEnds, begins_at};

use kb_word::Memory;
use std::alloc::Global;
use std::marker::Model;

/// Lists side by side in one array.
#[derive(Debug, Drop)]
pub struct Ragged<T> {
    arrays: Box<Arrays<T>>,
}

/// The items of all lists, one list behind another, and where each list ends. More items than a `u32` can number take
/// more memory than there is.
#[derive(Debug, Drop)]
struct Arrays<T> {
    items: Vec<T>,
    ends: Vec<u32>,
}

impl<T> Model for Ragged<T> {
    ghost use Rattle.std.specs.Prelude.{List, length};
    ghost use Rattle.kb_ragged.specs.Cuts.{cut, AreEnds};

    ghost Value = { List (List T) };

    ghost view = { λ ragged. cut 0 ragged.arrays.value.ends.items ragged.arrays.value.items.items };

    ghost invariant = { λ ragged.
        AreEnds 0 ragged.arrays.value.ends.items (length ragged.arrays.value.items.items) };
}

impl<T: Copy> Ragged<T> {
    /// No lists.
    pub fn new(alloc: Global) -> Result<Ragged<T>, Memory>
        ensures { IfOk result (λ lists. lists ≡ []) }
    {
        let arrays = Box::new(
            alloc,
            Arrays {
                items: Vec::new(alloc),
                ends: Vec::new(alloc),
            },
        )?;
        Ok(Ragged { arrays })
    }

    /// The number of lists.
    pub fn len(&self) -> usize
        ensures { result ≡ length self.now }
    {
        self.arrays.ends.len()
    }

    /// The list at a place.
    pub fn get(&self, place: usize) -> Option<&[T]>
        ensures { slice_get self.now place ≡ option_map (λ list. list.now) result }
    {
        piece(
            self.arrays.items.as_slice(),
            self.arrays.ends.as_slice(),
            place,
        )
    }

    /// Appends a list. Where memory runs out, the lists are as they were.
    pub fn push(&mut self, list: &[T]) -> Result<(), Memory>
        ensures pushed { OnOk result (self.new ≡ self.old ++ list.now ∷ []) }
        ensures kept { OnErr result (self.new ≡ self.old) }
    {
        let arrays = &mut *self.arrays;
        let end = end_of(arrays.items.len(), list.len()).ok_or(Memory)?;
        arrays.ends.push(end)?;
        if arrays.items.extend_from_slice(list).is_err() {
            arrays.ends.pop();
            return Err(Memory);
        }
        Ok(())
    }
}

/// The piece at a place of items that are cut at these ends.
fn piece<'a, T: Copy>(items: &'a [T], ends: &[u32], place: usize) -> Option<&'a [T]>
    requires { AreEnds 0 ends.now (length items.now) }
    ensures { slice_get (cut 0 ends.now items.now) place ≡ option_map (λ list. list.now) result }
{
    if place >= ends.len() {
        return None;
    }
    Some(range(items, beginning(ends, place), ends[place] as usize))
}

/// The items from one place up to another.
fn range<T: Copy>(items: &[T], start: usize, end: usize) -> &[T]
    requires { (start ≤ end) × (end ≤ length items.now) }
    ensures { result.now ≡ slice_range items.now start end }
{
    &items[start..end]
}

/// Where the piece at a place begins.
fn beginning(ends: &[u32], place: usize) -> usize
    requires { place < length ends.now }
    ensures { result ≡ begins_at 0 ends.now place }
{
    if place == 0 {
        0
    } else {
        ends[place - 1] as usize
    }
}

/// Where a list of so many items ends behind so many others.
fn end_of(before: usize, count: usize) -> Option<u32>
    ensures { IfSome result (λ end. end ≡ before + count) }
{
    u32::try_from(before.checked_add(count)?).ok()
}
