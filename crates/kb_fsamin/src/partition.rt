//! A refinable partition: numbered items in parts, which are split by marking items.
//!
//! The items stand in one array, those of a part side by side, and of these the marked ones first,
//! so that to mark an item is to exchange two items. Where some items of a part are marked, they or
//! the others go to a new part, whichever are fewer; so each item goes to a new part at most as
//! often as its part can be halved.
//!
//! Of a part it is kept where the items begin that are not marked, and where they end. Where it
//! begins itself while items of it are marked is known by the one that was marked first, so that a
//! part takes eight bytes, and marking takes none.

ghost use Rattle.std.specs.Prelude.{◌≡◌, ◌↔◌, ◌<◌, ◌≤◌, ◌^◌, ℕ, length, get_or, sum, All, IfOk, IsTrue, OnOk};
ghost use Rattle.kb_fsamin.specs.Partitions.{AreCounts, AreHalves, AreMembers, AreRanges, AreRelabelled, IsArranged, IsDivided, IsFirst, IsFound, IsMarkedIn, IsMarkedMore, IsPartition, IsSplitBy, first_of, part_of, plain, range_from};

use kb_word::Memory;
use std::alloc::Global;

/// Where the items of a part stand that are not marked; the marked ones stand just before them.
#[derive(Clone, Copy)]
pub(crate) struct Part {
    /// The place of the first item that is not marked.
    first: u32,
    /// The place past the last item.
    past: u32,
}

/// Items in parts.
#[derive(Drop)]
pub(crate) struct Partition {
    /// The part of each item.
    pub(crate) of: Vec<u32>,
    /// The items, part after part.
    elements: Vec<u32>,
    /// Where each item stands.
    places: Vec<u32>,
    parts: Vec<Part>,
}

impl Partition {
    /// The items in these parts, by a counting sort.
    pub(crate) fn new(alloc: Global, of: Vec<u32>, count: usize) -> Result<Partition, Memory>
        requires known { All (λ part. part < count) of.items }
        requires few { length of.items < 2 ^ 32 }
        requires count { count < 2 ^ 32 }
        ensures partition { IfOk result (λ parts. IsPartition parts) }
        ensures of { IfOk result (λ parts. parts.of.items ≡ of.items) }
        ensures count { IfOk result (λ parts. length parts.parts.items ≡ count) }
    {
        let counts = counts_of(alloc, of.as_slice(), count)?;
        // There may come to be as many parts as there are items.
        let mut parts = laid_out(alloc, counts.as_slice(), of.len().max(count))?;
        let mut elements = vec![in alloc; 0; of.len()]?;
        let mut places = Vec::with_capacity(alloc, of.len())?;
        for (item, part) in of.iter().enumerate() {
            let mut filled = parts[*part as usize];
            elements[filled.past as usize] = item as u32;
            places.push(filled.past)?;
            filled.past += 1;
            parts[*part as usize] = filled;
        }
        Ok(Partition {
            of,
            elements,
            places,
            parts,
        })
    }

    /// How many parts there are.
    pub(crate) fn len(&self) -> usize
        requires { IsPartition self.now }
        ensures count { result ≡ length self.now.parts.items }
        ensures few { result < 2 ^ 32 }
    {
        self.parts.len()
    }

    /// The items of a part.
    pub(crate) fn members(&self, part: u32) -> &[u32]
        requires partition { IsPartition self.now }
        requires part { part < length self.now.parts.items }
        ensures { AreMembers self.now.of.items part result.now }
    {
        let range = self.parts[part as usize];
        &self.elements.as_slice()[range.first as usize..range.past as usize]
    }

    /// An item of the part of an item, the same for all items of the part.
    pub(crate) fn representative(&self, item: u32) -> u32
        requires partition { IsPartition self.now }
        requires item { item < length self.now.of.items }
        ensures { result ≡ first_of self.now (part_of self.now.of.items item) }
    {
        let part = self.of[item as usize];
        self.elements[self.parts[part as usize].first as usize]
    }

    /// Splits each part into the items that are in the list and those that aren't.
    pub(crate) fn split(&mut self, items: &[u32]) -> Result<(), Memory>
        requires partition { IsPartition self.old }
        requires items { All (λ item. item < length self.old.of.items) items.now }
        ensures partition { OnOk result (IsPartition self.new) }
        ensures split { OnOk result (IsSplitBy items.now self.old.of.items self.new.of.items) }
    {
        for item in items {
            self.mark(*item);
        }
        for item in items {
            // Of the items of a part that is not divided yet the first in the list stands first.
            if self.is_marked(*item) {
                self.divide(*item)?;
            }
        }
        Ok(())
    }

    /// Whether the item is marked.
    fn is_marked(&self, item: u32) -> bool
        requires arranged { IsArranged self.now }
        requires item { item < length self.now.of.items }
        ensures { IsTrue result ↔ IsMarkedIn self.now item }
    {
        let part = self.of[item as usize];
        self.places[item as usize] < self.parts[part as usize].first
    }

    /// Marks the item.
    fn mark(&mut self, item: u32)
        requires arranged { IsArranged self.old }
        requires item { item < length self.old.of.items }
        ensures arranged { IsArranged self.new }
        ensures marked { IsMarkedMore item self.old self.new }
    {
        let part = self.of[item as usize];
        let mut range = self.parts[part as usize];
        let place = self.places[item as usize];
        if range.first <= place {
            let other = self.elements[range.first as usize];
            self.elements[place as usize] = other;
            self.places[other as usize] = place;
            self.elements[range.first as usize] = item;
            self.places[item as usize] = range.first;
            range.first += 1;
            self.parts[part as usize] = range;
        }
    }

    /// Splits the part whose first item this is, a marked one, into its marked items and the others,
    /// none of which is marked then.
    fn divide(&mut self, item: u32) -> Result<(), Memory>
        requires arranged { IsArranged self.old }
        requires item { item < length self.old.of.items }
        requires marked { IsMarkedIn self.old item }
        requires first { IsFirst self.old item }
        ensures arranged { OnOk result (IsArranged self.new) }
        ensures divided { OnOk result
            (IsDivided (part_of self.old.of.items item) self.old self.new) }
    {
        let part = self.of[item as usize];
        let first = self.places[item as usize];
        let number = self.parts.len() as u32;
        let whole = self.parts[part as usize];
        if whole.first == whole.past || number == u32::MAX {
            self.parts[part as usize] = Part {
                first,
                past: whole.past,
            };
            return Ok(());
        }
        let (rest, smaller) = halves(first, whole);
        self.parts.push(smaller)?;
        self.parts[part as usize] = rest;
        self.relabel(smaller, number);
        Ok(())
    }

    /// Puts the items that stand in the range into the part.
    fn relabel(&mut self, range: Part, part: u32)
        requires range { (range.first ≤ range.past)
            × (range.past ≤ length self.old.elements.items) }
        requires members { (place : ℕ) → range.first ≤ place → place < range.past
            → IsFound self.old.of.items self.old.elements.items self.old.places.items place }
        requires placed { (item : ℕ) → item < length self.old.of.items
            → get_or self.old.elements.items (get_or self.old.places.items item 0) 0 ≡ item }
        ensures others { self.new ≡ record self.old { of = self.new.of } }
        ensures of { AreRelabelled self.old.places.items range.first part range.past
            self.old.of.items self.new.of.items }
    {
        for place in range.first..range.past {
            let item = self.elements[place as usize];
            self.of[item as usize] = part;
        }
    }
}

/// The halves of a part that begins at the place, its marked items and the others, the larger half first.
fn halves(first: u32, others: Part) -> (Part, Part)
    requires { (first ≤ others.first) × (others.first ≤ others.past) }
    ensures { AreHalves (range_from first others) (plain result.0) (plain result.1) }
{
    let marked = Part {
        first,
        past: others.first,
    };
    if others.first - first <= others.past - others.first {
        (others, marked)
    } else {
        (marked, others)
    }
}

/// How many items each part has.
fn counts_of(alloc: Global, of: &[u32], count: usize) -> Result<Vec<u32>, Memory>
    requires known { All (λ part. part < count) of.now }
    requires few { length of.now < 2 ^ 32 }
    ensures { IfOk result (λ counts. AreCounts of.now (length of.now) count counts.items) }
{
    let mut counts = vec![in alloc; 0; count]?;
    for part in of {
        counts[*part as usize] += 1;
    }
    Ok(counts)
}

/// Ranges for as many items of each part, part after part, with none yet, in a list with room for so many parts.
fn laid_out(alloc: Global, counts: &[u32], room: usize) -> Result<Vec<Part>, Memory>
    requires { sum counts.now < 2 ^ 32 }
    ensures { IfOk result (λ parts. AreRanges counts.now (length counts.now) parts.items) }
{
    let mut parts = Vec::with_capacity(alloc, room)?;
    let mut first = 0;
    for count in counts {
        parts.push(Part { first, past: first })?;
        first += *count;
    }
    Ok(parts)
}
