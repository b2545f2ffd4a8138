//! What rules of the group show of multipliers.

ghost use Rattle.std.specs.Prelude.{◌≡◌, IsTrue, Ok, IfOk, []};
ghost use Rattle.kb_word.specs.Relations.{relations_of};
ghost use Rattle.kb_fsa.specs.Language.{Automaton, generators};
ghost use Rattle.kb_fsa.specs.declared.alphabet.Alphabet.TheVariants.{Pair};
ghost use Rattle.kb_diff.specs.Groups.{EachInverts};
ghost use Rattle.kb_leastpair.specs.LeastPair.{IsLeastPair};
ghost use Rattle.kb_structure.specs.StructureOf.{structure_of};
ghost use Rattle.kb_structure.specs.Certificates.{IsTrueToGroup};
ghost use Rattle.kb_structure.specs.Labels.{RelatesProducts};
ghost use Rattle.kb_labels.specs.Labels.{AreEqualSides, labelling_of};
ghost use Rattle.kb_axioms.specs.declared.answers.Truth.TheVariants.{True};
ghost use Rattle.kb_axioms.specs.Truth.{AreConfluentRulesOf, AreMultipliers, IsDifferentPair, TruthSays};

use crate::answers::Truth;
use kb_fsa::Fsa;
use kb_labels::{Labels, check, least_unequal_pair};
use kb_rules::Reducer;
use kb_word::{Letter, Memory, Presentation, Word};
use std::alloc::Global;

/// Whether all label words of each state of each multiplier have one normal form. Where they do, and both sides of each
/// rule are the same element, each multiplier relates only words that differ by its generator. Where they don't and the
/// rules are confluent, there is a pair of words that don't, and the first one is looked for.
pub fn check_truth<R: Reducer>(
    alloc: Global,
    presentation: &Presentation,
    multipliers: &[Fsa],
    reducer: &R,
    confluent: bool,
) -> Result<Truth, Memory>
    requires group { EachInverts presentation.now.n presentation.now.inv }
    requires multipliers { AreMultipliers presentation.now.n multipliers.now }
    requires confluent { IsTrue confluent → AreConfluentRulesOf presentation.now
        (R.rules reducer.now) }
    ensures says { IfOk result
        (TruthSays presentation.now (R.rules reducer.now) confluent multipliers.now) }
    ensures sound { result ≡ Ok True
        → AreEqualSides (relations_of presentation.now.inv presentation.now.eqs)
        (R.rules reducer.now)
        → (acceptor : Automaton) → generators acceptor.alphabet ≡ presentation.now.n
        → IsTrueToGroup (structure_of presentation.now.order
        (relations_of presentation.now.inv presentation.now.eqs) acceptor multipliers.now) }
{
    // A use of the list brings its invariant, that the rules decrease.
    let _rules = reducer.list().as_slice();
    let n = presentation.n;
    for (place, multiplier) in multipliers.iter().enumerate() {
        prove!(place < usize::from(n));
        let x = Letter::new(place as u16 + 1);
        match check(alloc, presentation, x, multiplier, reducer)? {
            Labels::Agree => {}
            Labels::Differ {
                state,
                label,
                other,
            } => {
                if confluent {
                    let (u, v) = least_different(alloc, presentation, x, multiplier, reducer)?;
                    return Ok(Truth::Different { x, u, v });
                }
                return Ok(Truth::Unresolved {
                    x,
                    state,
                    label,
                    other,
                });
            }
        }
    }
    Ok(Truth::True)
}

/// The least pair of words that the multiplier of x has and that don't differ by x, where it has one.
fn least_different<R: Reducer>(
    alloc: Global,
    presentation: &Presentation,
    x: Letter,
    multiplier: &Fsa,
    reducer: &R,
) -> Result<(Word, Word), Memory>
    requires group { EachInverts presentation.now.n presentation.now.inv }
    requires alphabet { multiplier.now.alphabet ≡ Pair presentation.now.n }
    requires confluent { AreConfluentRulesOf presentation.now (R.rules reducer.now) }
    requires there { ¬ RelatesProducts (labelling_of presentation.now x multiplier.now (λ state. [])) }
    ensures { IfOk result (λ pair. IsLeastPair
        (IsDifferentPair presentation.now multiplier.now x) pair.0 pair.1) }
{
    // A use of the list brings its invariant, that the rules decrease.
    let _rules = reducer.list().as_slice();
    match least_unequal_pair(alloc, presentation, x, multiplier, reducer)? {
        Some(pair) => Ok(pair),
        None => unreachable!(),
    }
}
