//! The states that lie on accepted texts, with their labels.

ghost use Rattle.std.specs.Prelude.{◌≡◌, ◌≤◌, ◌<◌, ℕ, Some, IfOk, IfSome, IfNone, length, get_or, slice_get};
ghost use Rattle.kb_explore.specs.Exploration.{AreFromEarlier};
ghost use Rattle.kb_fsa.specs.Moves.{IsBackwardOf};
ghost use Rattle.kb_fsa.specs.PairSymbols.{pair_symbols};
ghost use Rattle.kb_fsa.specs.declared.alphabet.Alphabet.TheVariants.{Pair};
ghost use Rattle.kb_diff.specs.Groups.{EachInverts, group_of};
ghost use Rattle.kb_labels.specs.Places.{AreFromOrigins, AreInOrder, IsFromOrigin};

use crate::live_part::live_states;
use crate::turning::{Scratch, turn};
use indexmap::IndexSet;
use kb_fsa::{Backward, Fsa, live};
use kb_rules::Reducer;
use kb_word::{Memory, Presentation, Word};
use std::alloc::Global;

/// The states that lie on accepted texts, in the order of the least texts that lead to them, with their labels.
#[derive(Drop)]
pub(crate) struct Placed {
    /// The states.
    pub(crate) states: IndexSet<u32>,
    /// For each, the number of the state before it on its least text, from 1, and the last symbol of that text; (0, 0)
    /// for the initial state.
    pub(crate) origins: Vec<(u32, u32)>,
    /// Their labels.
    pub(crate) labels: Vec<Word>,
}

impl Placed {
    /// The place of a state; `None` where it lies on no accepted text.
    pub(crate) fn place_of(&self, state: u32) -> Option<usize>
        ensures some { IfSome result (λ place. slice_get self.now.states.keys place ≡ Some state) }
        ensures none { IfNone result ((place : ℕ)
            → slice_get self.now.states.keys place ≡ Some state → ⊥) }
    {
        self.states.get_index_of(&state)
    }
}

/// The states of a multiplier that lie on accepted texts, with their labels. The moves are those of the multiplier,
/// backwards.
pub(crate) fn placed_states<R: Reducer>(
    alloc: Global,
    presentation: &Presentation,
    reducer: &R,
    multiplier: &Fsa,
    moves: &Backward,
) -> Result<Placed, Memory>
    requires group { EachInverts presentation.now.n presentation.now.inv }
    requires alphabet { multiplier.now.alphabet ≡ Pair presentation.now.n }
    requires moves { IsBackwardOf multiplier.now.table moves.now }
    ensures in_order { IfOk result (λ placed. AreInOrder presentation.now.n multiplier.now.table
        placed.states.keys placed.origins.items) }
    ensures one_each { IfOk result (λ placed.
        length placed.labels.items ≡ length placed.states.keys) }
    ensures from_origins { IfOk result (λ placed. AreFromOrigins
        (group_of presentation.now (R.rules reducer.now))
        placed.origins.items placed.labels.items) }
{
    let marks = live(alloc, multiplier.table(), moves)?;
    let explored = live_states(alloc, multiplier, marks.as_slice())?;
    let count = explored.states.len();
    let labels = labels_of(
        alloc,
        presentation,
        reducer,
        explored.origins.as_slice(),
        count,
    )?;
    Ok(Placed {
        states: explored.states,
        origins: explored.origins,
        labels,
    })
}

/// The labels of the first states, so many, with these origins.
pub(crate) fn labels_of<R: Reducer>(
    alloc: Global,
    presentation: &Presentation,
    reducer: &R,
    origins: &[(u32, u32)],
    count: usize,
) -> Result<Vec<Word>, Memory>
    requires group { EachInverts presentation.now.n presentation.now.inv }
    requires generators { presentation.now.n ≤ 65534 }
    requires count { count ≤ length origins.now }
    requires from_earlier { AreFromEarlier origins.now }
    requires symbols { (place : ℕ) → place < count
        → (get_or origins.now place (0, 0)).1 ≤ pair_symbols presentation.now.n }
    ensures one_each { IfOk result (λ labels. length labels.items ≡ count) }
    ensures each { IfOk result (λ labels. AreFromOrigins
        (group_of presentation.now (R.rules reducer.now)) origins.now labels.items) }
{
    let mut labels = Vec::with_capacity(alloc, count)?;
    let mut scratch = Scratch::new(alloc);
    for place in 0..count {
        let origin = origins[place];
        let label = label_from(alloc, presentation, reducer, &labels, origin, &mut scratch)?;
        labels.push(label)?;
    }
    Ok(labels)
}

/// The label of a state with this origin, after the labels of the states before it.
fn label_from<R: Reducer>(
    alloc: Global,
    presentation: &Presentation,
    reducer: &R,
    labels: &[Word],
    origin: (u32, u32),
    scratch: &mut Scratch,
) -> Result<Word, Memory>
    requires group { EachInverts presentation.now.n presentation.now.inv }
    requires generators { presentation.now.n ≤ 65534 }
    requires earlier { origin.0 ≤ length labels.now }
    requires symbol { origin.1 ≤ pair_symbols presentation.now.n }
    ensures { IfOk result (IsFromOrigin (group_of presentation.now (R.rules reducer.now))
        labels.now origin.0 origin.1) }
{
    match origin.0.checked_sub(1) {
        Some(place) => {
            let label = &labels[place as usize];
            turn(presentation, reducer, label, origin.1, scratch)?;
            scratch.word.copy(alloc)
        }
        None => Ok(Word::new(alloc)),
    }
}
