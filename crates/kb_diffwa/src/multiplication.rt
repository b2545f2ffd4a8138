//! The multipliers of generators.

ghost use Rattle.std.specs.Prelude.{◌≡◌, ◌<◌, ◌≤◌, ℕ, Err, map, IsOk, IfOk};
ghost use Rattle.kb_fsa.specs.declared.alphabet.Alphabet.TheVariants.{Plain, Pair};
ghost use Rattle.kb_explore.specs.declared.det.Det.TheVariants.{TooManyStates};
ghost use Rattle.kb_diff.specs.Steps.{AreSteps};
ghost use Rattle.kb_diff.specs.Tables.{step_in};
ghost use Rattle.kb_diffwa.specs.Multipliers.{AreTargets, CountedPlaces, HasMultipliers, IsMultiplier};
ghost use Rattle.kb_diffwa.specs.declared.place.Place.{Place as PlaceModel};

use crate::pairs::Pairs;
use crate::place::Place;
use kb_diff::{Differences, Machine};
use kb_explore::{Det, explore};
use kb_fsa::{Alphabet, Fsa, PairSymbols};
use kb_labelled::Labelled;
use kb_rules::Reducer;
use kb_word::Memory;
use std::alloc::Global;

/// The multiplier of generator x: an automaton of the pairs of accepted words that lead, read side by side, from the
/// empty difference to the normal form of x by differences that are kept. The machine is that of the differences.
pub fn multiplier<R: Reducer>(
    alloc: Global,
    differences: &Differences<R>,
    machine: &Machine,
    acceptor: &Fsa,
    x: u16,
    limit: u32,
) -> Result<Fsa, Det>
    requires steps { AreSteps differences.now.group differences.now.words (step_in machine.now) }
    requires alphabet { acceptor.now.alphabet ≡ Plain differences.now.group.n }
    requires positive { 0 < x }
    requires letter { x ≤ differences.now.group.n }
    ensures alphabet { IfOk result (λ fsa. fsa.alphabet ≡ Pair differences.now.group.n) }
    ensures language { IfOk result
        (IsMultiplier differences.now.group differences.now.words acceptor.now x) }
    ensures few { IsOk result
        → ¬ CountedPlaces differences.now.group differences.now.words acceptor.now.table limit }
    ensures many { (most : ℕ) → result ≡ Err (TooManyStates most) → (most ≡ limit)
        × CountedPlaces differences.now.group differences.now.words acceptor.now.table limit }
{
    // A use of the differences brings their invariant, that no word stands twice among them.
    let _kept = differences.len();
    let n = acceptor.alphabet().generators();
    let symbols = PairSymbols { n };
    // From the empty difference the padding and x lead to the normal form of x.
    let target = machine.step(1, n + 1, x);
    let targets = [target];
    let pairs = Pairs {
        acceptor,
        symbols,
        differences: machine,
        targets: &targets,
    };
    let exploration = explore(alloc, &pairs, limit)?;
    Ok(Fsa::new(Alphabet::Pair(n), exploration.table))
}

/// The multipliers of all generators as one automaton of pairs: they have one set of moves, and differ in nothing but
/// the difference at which they accept, whose number is the label.
#[derive(Drop)]
pub struct AllMultipliers {
    /// The pairs of all multipliers, each with the number of the difference to which it leads.
    pub labelled: Labelled,
    /// For each generator in order, the label of its multiplier's pairs.
    pub targets: Vec<u32>,
}

/// The multipliers of all generators, by one exploration.
pub fn multipliers<R: Reducer>(
    alloc: Global,
    differences: &Differences<R>,
    machine: &Machine,
    acceptor: &Fsa,
    limit: u32,
) -> Result<AllMultipliers, Det>
    requires steps { AreSteps differences.now.group differences.now.words (step_in machine.now) }
    requires alphabet { acceptor.now.alphabet ≡ Plain differences.now.group.n }
    ensures multipliers { IfOk result (λ all. HasMultipliers differences.now.group
        differences.now.words acceptor.now all.labelled all.targets.items) }
    ensures few { IsOk result
        → ¬ CountedPlaces differences.now.group differences.now.words acceptor.now.table limit }
    ensures many { (most : ℕ) → result ≡ Err (TooManyStates most) → (most ≡ limit)
        × CountedPlaces differences.now.group differences.now.words acceptor.now.table limit }
{
    // As in `multiplier`.
    let _kept = differences.len();
    let n = acceptor.alphabet().generators();
    let targets = targets_of(alloc, machine, n)?;
    let pairs = Pairs {
        acceptor,
        symbols: PairSymbols { n },
        differences: machine,
        targets: targets.as_slice(),
    };
    let exploration = explore(alloc, &pairs, limit)?;
    let labels = differences_of(alloc, exploration.states.as_slice())?;
    let automaton = Fsa::new(Alphabet::Pair(n), exploration.table);
    Ok(AllMultipliers {
        labelled: Labelled::new(automaton, labels),
        targets,
    })
}

/// For each generator in order, the number of the difference that is its normal form.
fn targets_of(alloc: Global, machine: &Machine, n: u16) -> Result<Vec<u32>, Memory>
    requires { n ≤ 65534 }
    ensures { IfOk result (λ targets. AreTargets n (step_in machine.now) n targets.items) }
{
    let mut targets = Vec::with_capacity(alloc, usize::from(n))?;
    for index in 0..n {
        targets.push(machine.step(1, n + 1, index + 1))?;
    }
    Ok(targets)
}

/// The numbers of the differences of places, in order.
fn differences_of(alloc: Global, places: &[Place]) -> Result<Vec<u32>, Memory>
    ensures { IfOk result (λ numbers.
        numbers.items ≡ map (λ (place : PlaceModel). place.difference) places.now) }
{
    let mut numbers = Vec::with_capacity(alloc, places.len())?;
    for place in places {
        numbers.push(place.difference)?;
    }
    Ok(numbers)
}
