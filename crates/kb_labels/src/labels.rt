//! The check.

ghost use Rattle.std.specs.Prelude.{◌≡◌, ℕ, List, Ok, IfOk};
ghost use Rattle.kb_word.specs.Relations.{relations_of};
ghost use Rattle.kb_fsa.specs.declared.alphabet.Alphabet.TheVariants.{Pair};
ghost use Rattle.kb_diff.specs.Groups.{EachInverts, group_of};
ghost use Rattle.kb_structure.specs.Labels.{RelatesProducts};
ghost use Rattle.kb_labels.specs.Labels.{AreEqualSides, HaveOneNormalForm, IsAnswered, labelling_of};
ghost use Rattle.kb_labels.specs.declared.labels.Labels.TheVariants.{Agree};

use crate::comparing::first_apart;
use crate::placed::placed_states;
use kb_fsa::{Fsa, reversed};
use kb_rules::Reducer;
use kb_word::{Letter, Memory, Presentation, Word};
use std::alloc::Global;

/// Whether the label words of a multiplier's states have one normal form each.
#[derive(Debug, Drop)]
pub enum Labels {
    /// The label words of each state have its label as their normal form.
    Agree,
    /// A label word of a state has another normal form than the state's label.
    Differ {
        /// The first such state, in the order of the least texts that lead to the states.
        state: u32,
        /// Its label.
        label: Word,
        /// The least other normal form of one of its label words.
        other: Word,
    },
}

/// Whether all label words of each state of the multiplier of x that lies on an accepted text have the state's label as
/// their normal form.
pub fn check<R: Reducer>(
    alloc: Global,
    presentation: &Presentation,
    x: Letter,
    multiplier: &Fsa,
    reducer: &R,
) -> Result<Labels, Memory>
    requires group { EachInverts presentation.now.n presentation.now.inv }
    requires alphabet { multiplier.now.alphabet ≡ Pair presentation.now.n }
    ensures answer { IfOk result (IsAnswered (group_of presentation.now (R.rules reducer.now))
        presentation.now x multiplier.now) }
    ensures sound { (label : ℕ → List ℕ) → result ≡ Ok Agree
        → AreEqualSides (relations_of presentation.now.inv presentation.now.eqs)
        (R.rules reducer.now)
        → RelatesProducts (labelling_of presentation.now x multiplier.now label) }
    ensures complete { (label : ℕ → List ℕ)
        → AreEqualSides (relations_of presentation.now.inv presentation.now.eqs)
        (R.rules reducer.now)
        → HaveOneNormalForm (relations_of presentation.now.inv presentation.now.eqs)
        (R.rules reducer.now)
        → RelatesProducts (labelling_of presentation.now x multiplier.now label)
        → IfOk result (λ labels. labels ≡ Agree) }
{
    // A use of the list brings its invariant, that the rules decrease.
    let _rules = reducer.list().as_slice();
    let moves = reversed(alloc, multiplier.table())?;
    let placed = placed_states(alloc, presentation, reducer, multiplier, &moves)?;
    match first_apart(alloc, presentation, reducer, x, multiplier, &moves, &placed)? {
        None => Ok(Labels::Agree),
        Some(apart) => {
            let state = placed.states[apart.place];
            let label = placed.labels[apart.place].copy(alloc)?;
            Ok(Labels::Differ {
                state,
                label,
                other: apart.word,
            })
        }
    }
}
