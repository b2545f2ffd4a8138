//! The automata of word differences.

ghost use Rattle.std.specs.Prelude.{◌≡◌, All, Ok, None, length, IfOk, IfSome};
ghost use Rattle.kb_word.specs.declared.word_order.WordOrder.TheVariants.{ShortLex};
ghost use Rattle.kb_fsa.specs.Canonical.{IsCanonical};
ghost use Rattle.kb_fsa.specs.declared.alphabet.Alphabet.TheVariants.{Plain};
ghost use Rattle.kb_diff.specs.Steps.{AreSteps};
ghost use Rattle.kb_diff.specs.Tables.{step_in};
ghost use Rattle.kb_diffwa.specs.Multipliers.{AreMultipliers, CountedPlaces};
ghost use Rattle.kb_diffwa.specs.Rivals.{CountedRivals};
ghost use Rattle.kb_round.specs.Figures.{largest_of};
ghost use Rattle.kb_round.specs.Reduced.{AreCanonicalForms, IsCanonicalForm};
ghost use Rattle.kb_round.specs.Rounds.{IsAcceptorOf};

use kb_diff::{Differences, Machine};
use kb_diffwa::{AllMultipliers, acceptor, multipliers};
use kb_draw::{Crew, Making, make_all};
use kb_explore::Det;
use kb_fsa::Fsa;
use kb_fsamin::{canonical, reduced_by_labels};
use kb_io::Gate;
use kb_labelled::Labelled;
use kb_rules::Reducer;
use kb_word::Memory;
use std::alloc::Global;
use std::sync::Wait;
use std::thread::Threads;

/// The canonical word acceptor of the differences; none where it counts more states than the limit.
pub(crate) fn canonical_acceptor<R: Reducer>(
    alloc: Global,
    differences: &Differences<R>,
    machine: &Machine,
    limit: u32,
) -> Result<Option<Fsa>, Memory>
    requires order { differences.now.group.order ≡ ShortLex }
    requires steps { AreSteps differences.now.group differences.now.words (step_in machine.now) }
    ensures found { IfOk result (λ found.
        IfSome found (IsAcceptorOf differences.now.group differences.now.words)) }
    ensures none { result ≡ Ok None
        → CountedRivals differences.now.group differences.now.words limit }
{
    match acceptor(alloc, differences, machine, limit) {
        Ok(explored) => Ok(Some(canonical(alloc, &explored)?)),
        Err(Det::TooManyStates { .. }) => Ok(None),
        Err(Det::Memory) => Err(Memory),
    }
}

/// The canonical multipliers of the differences over their acceptor, made canonical by the workers; none where they
/// count more states than the limit.
pub(crate) fn canonical_multipliers<R: Reducer, G: Gate, T: Threads + Wait + Sync>(
    rt: &T,
    alloc: Global,
    differences: &Differences<R>,
    machine: &Machine,
    acceptor: &Fsa,
    limit: u32,
    crew: &Crew<'_, G>,
) -> Result<Option<Vec<Fsa>>, Memory>
    requires steps { AreSteps differences.now.group differences.now.words (step_in machine.now) }
    requires alphabet { acceptor.now.alphabet ≡ Plain differences.now.group.n }
    ensures multiply { IfOk result (λ found. IfSome found (λ multipliers. AreMultipliers
        differences.now.group differences.now.words acceptor.now differences.now.group.n
        multipliers.items)) }
    ensures canonical { IfOk result (λ found. IfSome found (λ multipliers.
        All (λ multiplier. IsCanonical multiplier.table) multipliers.items)) }
    ensures none { result ≡ Ok None
        → CountedPlaces differences.now.group differences.now.words acceptor.now.table limit }
{
    match multipliers(alloc, differences, machine, acceptor, limit) {
        Ok(explored) => Ok(Some(canonical_forms(rt, alloc, explored, crew)?)),
        Err(Det::TooManyStates { .. }) => Ok(None),
        Err(Det::Memory) => Err(Memory),
    }
}

/// The canonical multipliers, by the workers. What was explored is made small once for all of them, and is let go
/// before the first of them is made canonical.
fn canonical_forms<G: Gate, T: Threads + Wait + Sync>(
    rt: &T,
    alloc: Global,
    explored: AllMultipliers,
    crew: &Crew<'_, G>,
) -> Result<Vec<Fsa>, Memory>
    ensures { IfOk result (λ forms. AreCanonicalForms explored.labelled explored.targets.items
        (length explored.targets.items) forms.items) }
{
    let AllMultipliers { labelled, targets } = explored;
    let reduced = reduced_by_labels(alloc, &labelled)?;
    drop(labelled);
    canonical_each(rt, alloc, &reduced, targets.as_slice(), crew)
}

/// For each of the labels in order, the canonical automaton of the texts that have it.
fn canonical_each<G: Gate, T: Threads + Wait + Sync>(
    rt: &T,
    alloc: Global,
    labelled: &Labelled,
    labels: &[u32],
    crew: &Crew<'_, G>,
) -> Result<Vec<Fsa>, Memory>
    ensures { IfOk result (λ forms.
        AreCanonicalForms labelled.now labels.now (length labels.now) forms.items) }
{
    make_all(rt, alloc, &Forms { labelled, labels }, crew)
}

/// The canonical automata of the texts that have the labels.
#[derive(Drop)]
struct Forms<'a> {
    labelled: &'a Labelled,
    labels: &'a [u32],
}

/// A place is a label's.
impl<'a> Making for Forms<'a> {
    ghost use Rattle.std.specs.Prelude.{length, get_or};
    ghost use Rattle.kb_round.specs.Figures.{largest_of};
    ghost use Rattle.kb_round.specs.Reduced.{IsCanonicalForm};

    type Made = Fsa;

    ghost places = { λ it. length it.labels.now };

    ghost is = { λ it place. IsCanonicalForm it.labelled.now (get_or it.labels.now place 0) };

    fn places(&self) -> u64 {
        self.labels.len() as u64
    }

    fn make(&self, alloc: Global, place: u64) -> Result<Fsa, Memory> {
        canonical_form(alloc, self.labelled, self.labels[place as usize])
    }
}

/// The canonical automaton of the texts that have the label.
fn canonical_form(alloc: Global, labelled: &Labelled, label: u32) -> Result<Fsa, Memory>
    ensures { IfOk result (IsCanonicalForm labelled.now label) }
{
    let accepting = labelled.accepting(alloc, label)?;
    let form = canonical(alloc, &accepting)?;
    Ok(form)
}

/// How many states the largest of the automata has.
pub(crate) fn largest(automata: &[Fsa]) -> u32
    ensures { result ≡ largest_of automata.now }
{
    let mut most = 0u32;
    for fsa in automata {
        most = most.max(fsa.len());
    }
    most
}
