//! The overlaps in which one line begins first.

ghost use Rattle.std.specs.Prelude.{◌≡◌, IfOk, OnOk, Some, slice_get};
ghost use Rattle.kb_overlap.specs.Overlapping.{AreOverlaps, OverlapsRule};
ghost use Rattle.kb_share.specs.Rows.{IsApartAt, found_at, Picks, SiftsAt};

use crate::found::Found;
use crate::version::Version;
use kb_overlap::{Joinability, Overlap, PairWorkspace};
use kb_rules::{Reducer, Rule};
use kb_word::Memory;

/// Finds those overlaps that are apart, of all overlaps of the left side of the line at this index
/// of the version. What the list held is gone.
pub fn apart_in_row<R: Reducer>(
    version: &Version<'_, R>,
    index: usize,
    first: &Rule,
    overlaps: &[Overlap],
    pair: &mut PairWorkspace,
    found: &mut Vec<Found>,
) -> Result<(), Memory>
    requires first { slice_get version.now.rules index ≡ Some first.now }
    requires overlaps { AreOverlaps version.now.rules first.now.0 overlaps.now }
    ensures { OnOk result
        (Picks (IsApartAt version.now.rules index) (found_at version.now.numbers index)
        overlaps.now found.new.items) }
{
    found.clear();
    for overlap in overlaps {
        if let Some(one) = sift_at(version, index, first, overlap, pair)? {
            found.push(one)?;
        }
    }
    Ok(())
}

/// The overlap of the lines at these indices, by their numbers, where it is apart.
fn sift_at<R: Reducer>(
    version: &Version<'_, R>,
    index: usize,
    first: &Rule,
    overlap: &Overlap,
    pair: &mut PairWorkspace,
) -> Result<Option<Found>, Memory>
    requires first { slice_get version.now.rules index ≡ Some first.now }
    requires overlap { OverlapsRule version.now.rules first.now.0 overlap.now.rule overlap.now.place }
    ensures { IfOk result (SiftsAt version.now index overlap.now) }
{
    // A line with itself at place 0 is one replacement, and no overlap.
    if overlap.rule == index && overlap.place == 0 {
        return Ok(None);
    }
    let second = &version.rules().as_slice()[overlap.rule];
    let place = overlap.place as u64;
    match pair.join(version.reducer(), first, second, place)? {
        Joinability::Joined => Ok(None),
        Joinability::Apart => Ok(Some(Found {
            first: version.numbers()[index],
            second: version.numbers()[overlap.rule],
            place,
        })),
    }
}
