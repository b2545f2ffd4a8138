//! The composite of two automata of pairs.

ghost use Rattle.std.specs.Prelude.{◌≡◌, ◌*◌, ℕ, Err, IsOk, IfOk};
ghost use Rattle.kb_fsa.specs.Language.{generators, symbols};
ghost use Rattle.kb_fsa.specs.Table.{HasSymbols};
ghost use Rattle.kb_fsa.specs.declared.alphabet.Alphabet.TheVariants.{Pair};
ghost use Rattle.kb_explore.specs.Exploration.{IsExploration};
ghost use Rattle.kb_explore.specs.Machine.{HasMoreStates};
ghost use Rattle.kb_explore.specs.declared.det.Det.TheVariants.{TooManyStates};
ghost use Rattle.kb_compose.specs.Composition.{CountedComposite, IsComposite};
ghost use Rattle.kb_compose.specs.StatePairs.{state_pairs};

use crate::counting::{all_pairs, have_more_sets};
use crate::machine::StatePairs;
use crate::pair_set::PairSet;
use crate::place::Place;
use crate::tails::ending_pairs;
use kb_explore::{Det, Exploration, explore};
use kb_fsa::{Fsa, PairSymbols};
use std::alloc::Global;

/// An automaton of the pairs (u, v) of words for which there is a word w, of any length, such that the first automaton
/// accepts (u, w) and the second one (w, v).
pub fn compose(alloc: Global, first: &Fsa, second: &Fsa, limit: u32) -> Result<Fsa, Det>
    requires pairs { (n : ℕ) × (first.now.alphabet ≡ Pair n) }
    requires alike { second.now.alphabet ≡ first.now.alphabet }
    ensures language { IfOk result (IsComposite first.now second.now) }
    ensures alphabet { IfOk result (λ composite. composite.alphabet ≡ first.now.alphabet) }
    ensures few { IsOk result → ¬ CountedComposite first.now second.now limit }
    ensures many { (most : ℕ) → result ≡ Err (TooManyStates most)
        → (most ≡ limit) × CountedComposite first.now second.now limit }
{
    let (one, two) = (first.table(), second.table());
    let machine = StatePairs {
        first,
        second,
        ending: PairSet::new(alloc),
    };
    let exploration = explored(alloc, &machine, limit)?;
    if have_more_sets(alloc, exploration.states.as_slice(), limit)? {
        return Err(Det::TooManyStates { limit });
    }
    let pairs = all_pairs(alloc, exploration.states.as_slice())?;
    let symbols = PairSymbols {
        n: first.alphabet().generators(),
    };
    let machine = StatePairs {
        first,
        second,
        ending: ending_pairs(alloc, symbols, one, two, &pairs)?,
    };
    let table = exploration.answered_by(alloc, &machine)?;
    Ok(Fsa::new(first.alphabet(), table))
}

/// The places of the machine, at most three times the limit: with one set there are at most three of them, by which
/// word has ended.
fn explored(alloc: Global, machine: &StatePairs<'_>, limit: u32) -> Result<Exploration<Place>, Det>
    ensures explored { IfOk result (λ e. IsExploration
        (state_pairs machine.now.first.now machine.now.second.now machine.now.ending)
        e.table e.states.keys e.origins.items) }
    ensures symbols { IfOk result (λ e.
        HasSymbols (symbols machine.now.first.now.alphabet) e.table) }
    ensures many { (most : ℕ) → result ≡ Err (TooManyStates most) → (most ≡ limit) × HasMoreStates
        (state_pairs machine.now.first.now machine.now.second.now machine.now.ending)
        (limit * 3) }
{
    match explore(alloc, machine, limit.saturating_mul(3)) {
        Ok(exploration) => Ok(exploration),
        // A limit that is cut off says nothing of the sets: so many places have no room.
        Err(Det::TooManyStates { .. }) if limit <= u32::MAX / 3 => {
            Err(Det::TooManyStates { limit })
        }
        Err(_) => Err(Det::Memory),
    }
}
