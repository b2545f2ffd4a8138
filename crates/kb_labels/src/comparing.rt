//! Comparing label words with labels.

ghost use Rattle.std.specs.Prelude.{◌≡◌, ◌≤◌, IfOk, OnOk, length};
ghost use Rattle.kb_explore.specs.Progress.{AreDistinct};
ghost use Rattle.kb_fsa.specs.Language.{IsAutomaton};
ghost use Rattle.kb_fsa.specs.Moves.{IsBackwardOf};
ghost use Rattle.kb_fsa.specs.PairSymbols.{pair_symbols};
ghost use Rattle.kb_fsa.specs.declared.alphabet.Alphabet.TheVariants.{Pair};
ghost use Rattle.kb_diff.specs.Groups.{EachInverts, group_of};
ghost use Rattle.kb_labels.specs.Places.{AreFromOrigins};
ghost use Rattle.kb_labels.specs.Comparing.{Compares, IsEndWord, IsFirstApart, IsMoveWord, IsWordAt};

use crate::apart::{Apart, keep};
use crate::placed::Placed;
use crate::turning::{Scratch, turn};
use kb_fsa::{Backward, Fsa};
use kb_rules::Reducer;
use kb_word::{Letter, Memory, Presentation, Word};
use std::alloc::Global;

/// The first label word, as a normal form, that isn't its state's label.
pub(crate) fn first_apart<R: Reducer>(
    alloc: Global,
    presentation: &Presentation,
    reducer: &R,
    x: Letter,
    multiplier: &Fsa,
    moves: &Backward,
    placed: &Placed,
) -> Result<Option<Apart>, Memory>
    requires group { EachInverts presentation.now.n presentation.now.inv }
    requires automaton { IsAutomaton multiplier.now }
    requires alphabet { multiplier.now.alphabet ≡ Pair presentation.now.n }
    requires moves { IsBackwardOf multiplier.now.table moves.now }
    requires labels { length placed.now.labels.items ≡ length placed.now.states.keys }
    requires origins { length placed.now.states.keys ≤ length placed.now.origins.items }
    requires distinct { AreDistinct placed.now.states.keys }
    requires from_origins { AreFromOrigins (group_of presentation.now (R.rules reducer.now))
        placed.now.origins.items placed.now.labels.items }
    ensures { IfOk result (IsFirstApart presentation.now.order placed.now.labels.items
        (IsWordAt (group_of presentation.now (R.rules reducer.now)) multiplier.now.table x
        placed.now.states.keys placed.now.labels.items moves.now.edges.items
        moves.now.symbols.items (length moves.now.edges.items))) }
{
    let mut found = first_end(alloc, presentation, reducer, x, multiplier, placed)?;
    let mut scratch = Scratch::new(alloc);
    for number in 0..moves.edges.len() {
        let (target, from) = moves.edges[number];
        let step = (from, moves.symbols[number], target);
        compare_move(
            alloc,
            presentation,
            reducer,
            placed,
            step,
            &mut scratch,
            &mut found,
        )?;
    }
    Ok(found)
}

/// The first accepting state's place whose label isn't the normal form of x, with that.
fn first_end<R: Reducer>(
    alloc: Global,
    presentation: &Presentation,
    reducer: &R,
    x: Letter,
    multiplier: &Fsa,
    placed: &Placed,
) -> Result<Option<Apart>, Memory>
    requires labels { length placed.now.labels.items ≡ length placed.now.states.keys }
    ensures { IfOk result (IsFirstApart presentation.now.order placed.now.labels.items
        (IsEndWord (group_of presentation.now (R.rules reducer.now)) multiplier.now.table x
        placed.now.states.keys (length placed.now.states.keys))) }
{
    let mut product = Word::new(alloc);
    product.push(x)?;
    let end = reducer.nf(alloc, &product)?;
    let mut found = None;
    for place in 0..placed.states.len() {
        if multiplier.is_accepting(placed.states[place]) {
            let label = &placed.labels[place];
            keep(alloc, &presentation.order, label, place, &end, &mut found)?;
        }
    }
    Ok(found)
}

/// Compares the word to which a move turns the label of its state with the label of its target. The move has its state,
/// its symbol and its target.
fn compare_move<R: Reducer>(
    alloc: Global,
    presentation: &Presentation,
    reducer: &R,
    placed: &Placed,
    step: (u32, u32, u32),
    scratch: &mut Scratch,
    found: &mut Option<Apart>,
) -> Result<(), Memory>
    requires group { EachInverts presentation.now.n presentation.now.inv }
    requires generators { presentation.now.n ≤ 65534 }
    requires symbol { step.1 ≤ pair_symbols presentation.now.n }
    requires labels { length placed.now.labels.items ≡ length placed.now.states.keys }
    requires origins { length placed.now.states.keys ≤ length placed.now.origins.items }
    requires distinct { AreDistinct placed.now.states.keys }
    requires from_origins { AreFromOrigins (group_of presentation.now (R.rules reducer.now))
        placed.now.origins.items placed.now.labels.items }
    ensures { OnOk result (Compares presentation.now.order placed.now.labels.items
        (IsMoveWord (group_of presentation.now (R.rules reducer.now)) placed.now.states.keys
        placed.now.labels.items step.0 step.1 step.2) found.old found.new) }
{
    let (Some(source), Some(target)) = (placed.place_of(step.0), placed.place_of(step.2)) else {
        return Ok(());
    };
    // The label of the target itself came from its origin.
    let (number, symbol) = placed.origins[target];
    if number as usize == source + 1 && symbol == step.1 {
        return Ok(());
    }
    turn(
        presentation,
        reducer,
        &placed.labels[source],
        step.1,
        scratch,
    )?;
    let label = &placed.labels[target];
    keep(
        alloc,
        &presentation.order,
        label,
        target,
        &scratch.word,
        found,
    )
}
