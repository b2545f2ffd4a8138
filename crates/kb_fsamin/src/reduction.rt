//! An automaton with the same labels and fewer states.

ghost use Rattle.std.specs.Prelude.{◌≡◌, ◌≤◌, length, map, IfOk};
ghost use Rattle.kb_labelled.specs.Labels.{SameLabels, listed_for};

use crate::classes::representatives;
use crate::labels::Labels;
use crate::quotient::Quotient;
use kb_explore::{Det, explore};
use kb_fsa::Fsa;
use kb_labelled::Labelled;
use kb_word::Memory;
use std::alloc::Global;

/// An automaton that gives each text the same label, if it has one, and has no more states: of states from which each
/// text leads to the same label one is left, and none of those that lead to no label.
pub fn reduced_by_labels(alloc: Global, labelled: &Labelled) -> Result<Labelled, Memory>
    ensures alphabet { IfOk result (λ made.
        made.automaton.alphabet ≡ labelled.now.automaton.alphabet) }
    ensures labels { IfOk result (SameLabels labelled.now) }
    ensures few { IfOk result (λ made. length made.automaton.table.rows
        ≤ length labelled.now.automaton.table.rows) }
{
    let fsa = labelled.automaton();
    let given = labelled.labels();
    let labels = Labels::listed(given);
    let listed = representatives(alloc, fsa.table(), &labels)?;
    let quotient = Quotient {
        fsa,
        representatives: listed.as_slice(),
    };
    match explore(alloc, &quotient, fsa.len()) {
        Ok(exploration) => {
            let states = exploration.states.as_slice();
            let own = labels_of(alloc, given, states)?;
            let made = Fsa::new(fsa.alphabet(), exploration.table);
            Ok(Labelled::new(made, own))
        }
        // Each class has its representative among the states.
        Err(Det::TooManyStates { .. }) => unreachable!(),
        Err(Det::Memory) => Err(Memory),
    }
}

/// The labels of states in this order.
fn labels_of(alloc: Global, labels: &[u32], states: &[u32]) -> Result<Vec<u32>, Memory>
    ensures { IfOk result (λ own. own.items ≡ map (listed_for labels.now) states.now) }
{
    let mut own = Vec::with_capacity(alloc, states.len())?;
    for state in states {
        own.push(label_at(labels, *state))?;
    }
    Ok(own)
}

/// The label of a state, and 0 of what is none.
fn label_at(labels: &[u32], state: u32) -> u32
    ensures { result ≡ listed_for labels.now state }
{
    match state.checked_sub(1) {
        Some(place) => labels.get(place as usize).copied().unwrap_or(0),
        None => 0,
    }
}
