//! The overlaps that are entered next.

ghost use Rattle.std.specs.Prelude.{◌≡◌, ◌<◌, All, IfOk, IfSome, IsTrue, Some, length, slice_get};
ghost use Rattle.kb_word.specs.Overlap.{Overlaps};
ghost use Rattle.kb_share.specs.Passes.{IsApart};

use crate::found::Found;
use crate::version::Version;
use crate::waiting::Waiting;
use kb_index::{Automaton, HasAutomaton};
use kb_overlap::{Joinability, PairWorkspace, meets};
use kb_rules::Rule;
use kb_word::{Letter, Memory};
use std::alloc::Global;

/// As many overlaps are entered by a pass at least, where so many are apart.
const FEWEST: usize = 16;

/// Takes the shortest of the waiting overlaps that are apart by a version: all of them or at least 16, with all that are
/// as short as the last one. Those before them that aren't apart, or needn't be looked at, are gone.
pub fn next_batch<R: HasAutomaton>(
    alloc: Global,
    version: &Version<'_, R>,
    waiting: &mut Waiting,
) -> Result<Vec<Found>, Memory>
    ensures { IfOk result (λ batch. All (IsApart version.now) batch.items) }
{
    let mut pair = PairWorkspace::new(alloc);
    let mut batch = Vec::new(alloc);
    let mut most = u64::MAX;
    while let Some(one) = waiting.take_first(most) {
        if is_apart(version, &one.found, &mut pair)? {
            batch.push(one.found)?;
        }
        if batch.len() >= FEWEST {
            most = one.letters;
        }
    }
    Ok(batch)
}

/// Whether an overlap is one of two lines of the version, must be looked at, and is apart.
fn is_apart<R: HasAutomaton>(
    version: &Version<'_, R>,
    one: &Found,
    pair: &mut PairWorkspace,
) -> Result<bool, Memory>
    ensures { IfOk result (λ answer. IsTrue answer → IsApart version.now one.now) }
{
    let (Some(first), Some(second)) = (
        place_of(version.numbers(), one.first),
        place_of(version.numbers(), one.second),
    ) else {
        return Ok(false);
    };
    let rules = version.rules().as_slice();
    let (first, second) = (&rules[first], &rules[second]);
    let overlaps = meets(first.left(), second.left(), one.place);
    if !overlaps || one.first == one.second && one.place == 0 {
        return Ok(false);
    }
    if is_composite(version, first, second, one.place) {
        return Ok(false);
    }
    match pair.join(version.reducer(), first, second, one.place)? {
        Joinability::Joined => Ok(false),
        Joinability::Apart => Ok(true),
    }
}

/// The place of a number in a list.
fn place_of(numbers: &[u32], number: u32) -> Option<usize>
    ensures { IfSome result (λ place. slice_get numbers.now place ≡ Some number) }
{
    numbers.binary_search(&number).ok()
}

/// Whether a left side stands strictly inside the superposition of two rules that overlap at a place: such an overlap
/// needs no look. That serves for speed alone.
fn is_composite<R: HasAutomaton>(
    version: &Version<'_, R>,
    first: &Rule,
    second: &Rule,
    place: u64,
) -> bool
    requires { Overlaps first.now.0 second.now.0 place }
{
    let Some(automaton) = version.reducer().automaton() else {
        return false;
    };
    let (begin, end) = (first.left().letters(), second.left().letters());
    let shared = begin.len() - place as usize;
    if place == 0 || end.len() <= shared {
        return false;
    }
    // A use of the states brings that there is the first one.
    let _states = automaton.states();
    let Some(state) = state_after(automaton, 0, &begin[1..]) else {
        return true;
    };
    state_after(automaton, state, &end[shared..end.len() - 1]).is_none()
}

/// The state after letters that are read from a state on, or none where a left side ends on the way.
fn state_after(automaton: &Automaton, from: u32, letters: &[Letter]) -> Option<u32>
    requires { from < length automaton.now.words }
    ensures { IfSome result (λ state. state < length automaton.now.words) }
{
    let mut state = from;
    for letter in letters {
        state = automaton.step(state, letter.number());
        if automaton.end_at(state) != 0 {
            return None;
        }
    }
    Some(state)
}
