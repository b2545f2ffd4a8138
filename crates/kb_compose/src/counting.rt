//! How many different sets places have.

ghost use Rattle.std.specs.Prelude.{◌≡◌, ◌≤◌, true, false, ℕ, List, length, IfOk};
ghost use Rattle.std.specs.List.{flat_map};
ghost use Rattle.kb_fsadet.specs.SubsetConstruction.{set_of};
ghost use Rattle.kb_compose.specs.Progress.{HaveFewSets, HaveMoreSets};

use crate::pair_set::PairSet;
use crate::place::Place;
use indexmap::IndexSet;
use kb_word::Memory;
use std::alloc::Global;

/// Whether the places have more different sets than the limit. Sets alone are counted, without which word has ended.
pub(crate) fn have_more_sets(alloc: Global, places: &[Place], limit: u32) -> Result<bool, Memory>
    ensures more { IfOk result (λ more. more ≡ true → HaveMoreSets places.now limit) }
    ensures few { IfOk result (λ more. more ≡ false → HaveFewSets places.now limit) }
{
    if places.len() <= limit as usize {
        return Ok(false);
    }
    count_sets(alloc, places, limit)
}

/// The same for many places, whose sets are counted one after another.
fn count_sets(alloc: Global, places: &[Place], limit: u32) -> Result<bool, Memory>
    ensures more { IfOk result (λ more. more ≡ true → HaveMoreSets places.now limit) }
    ensures few { IfOk result (λ more. more ≡ false → HaveFewSets places.now limit) }
{
    let mut sets = IndexSet::new(alloc);
    for place in places {
        sets.insert_full(place.pairs.copy(alloc)?)?;
        if sets.len() > limit as usize {
            return Ok(true);
        }
    }
    Ok(false)
}

/// The pairs of all places.
pub(crate) fn all_pairs(alloc: Global, places: &[Place]) -> Result<PairSet, Memory>
    ensures { IfOk result (λ all. all ≡ set_of (flat_map (λ place. place.pairs) places.now)) }
{
    let mut all = Vec::new(alloc);
    for place in places {
        all.extend_from_slice(place.pairs.as_slice())?;
    }
    Ok(PairSet::of(all))
}
