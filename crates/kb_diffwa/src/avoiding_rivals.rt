//! The word acceptor.

ghost use Rattle.std.specs.Prelude.{◌≡◌, ◌↔◌, ℕ, List, Err, IsOk, IfOk};
ghost use Rattle.kb_word.specs.declared.word_order.WordOrder.TheVariants.{ShortLex};
ghost use Rattle.kb_fsa.specs.Canonical.{AreReached};
ghost use Rattle.kb_fsa.specs.declared.alphabet.Alphabet.TheVariants.{Plain};
ghost use Rattle.kb_explore.specs.declared.det.Det.TheVariants.{TooManyStates};
ghost use Rattle.kb_diff.specs.Languages.{IsDifferenceAcceptor};
ghost use Rattle.kb_diff.specs.Steps.{AreSteps};
ghost use Rattle.kb_diff.specs.Tables.{step_in};
ghost use Rattle.kb_diffwa.specs.Rivals.{CountedRivals};

use crate::rival_sets::RivalSets;
use crate::sparse_steps::{all_marks, all_steps};
use kb_diff::{Differences, Machine};
use kb_explore::{Det, explore};
use kb_fsa::{Alphabet, Fsa};
use kb_rules::Reducer;
use std::alloc::Global;

/// How many differences there may be at most. More have no numbers.
const MOST_DIFFERENCES: usize = u32::MAX as usize;

/// The automaton of the words over the group's generators of which no factor is shown to be greater than another word
/// by the differences that are kept. Their machine is made once, for this and for the multipliers.
pub fn acceptor<R: Reducer>(
    alloc: Global,
    differences: &Differences<R>,
    machine: &Machine,
    limit: u32,
) -> Result<Fsa, Det>
    requires order { differences.now.group.order ≡ ShortLex }
    requires steps { AreSteps differences.now.group differences.now.words (step_in machine.now) }
    ensures alphabet { IfOk result (λ fsa. fsa.alphabet ≡ Plain differences.now.group.n) }
    ensures language { IfOk result
        (IsDifferenceAcceptor differences.now.group differences.now.words) }
    ensures reached { IfOk result (λ fsa. AreReached fsa.table) }
    ensures few { IsOk result
        → ¬ CountedRivals differences.now.group differences.now.words limit }
    ensures many { (most : ℕ) → result ≡ Err (TooManyStates most) → (most ≡ limit)
        × CountedRivals differences.now.group differences.now.words limit }
{
    let count = differences.len();
    if count > MOST_DIFFERENCES {
        return Err(Det::Memory);
    }
    let n = differences.generators();
    let letters = all_steps(alloc, n, count as u32, machine)?;
    let before_first = all_marks(alloc, letters.as_slice())?;
    let sets = RivalSets {
        n,
        differences: count as u32,
        letters,
        before_first,
    };
    let exploration = explore(alloc, &sets, limit)?;
    Ok(Fsa::new(Alphabet::Plain(n), exploration.table))
}
