//! Which states are alike: from alike states each text leads to one label, or to none.
//!
//! States that lead to no acceptance are left out; the others fall into classes by whether they accept, and by which
//! label.
//!
//! The classes are split by splitters, the smaller half first: Hopcroft, "An n log n algorithm for
//! minimizing states in a finite automaton", 1971, in the form for automata that lack moves of
//! Valmari, "Fast brief practical DFA minimization", Information Processing Letters 112, 2012. Of
//! this it is proved that it never separates alike states. Then each state is
//! compared with one that stands for its class: where both have moves by the same symbols to the
//! same classes, for all states, the states of a class are alike. Otherwise Moore's
//! rounds ("Gedanken-experiments on sequential machines", 1956) refine the classes until that is
//! so. That the splitters leave them nothing to refine is not proved, and no clause rests on it:
//! without the splitters the answer is the same, after more rounds.

ghost use Rattle.std.specs.Prelude.{◌≡◌, ◌↔◌, ◌+◌, ◌<◌, ◌≤◌, ◌^◌, ℕ, suc, List, length, All, IfOk, if◌then◌else◌};
ghost use Rattle.kb_fsa.specs.Table.{IsLive};
ghost use Rattle.kb_fsamin.specs.Classes.{AreRepresentatives};
ghost use Rattle.kb_fsamin.specs.Firsts.{AreByNumber, first_class, output_at};
ghost use Rattle.kb_fsa.specs.Graphs.{IsMarked};
ghost use Rattle.kb_fsamin.specs.Rounds.{IsClassing, IsStable, class_of};
ghost use Rattle.kb_fsamin.specs.Splitting.{AreNumbered};

use crate::labels::Labels;
use crate::rounds::refine_until_stable;
use crate::splitting::split_by_splitters;
use crate::stability::is_stable;
use indexmap::IndexSet;
use kb_fsa::{Table, live, reversed};
use kb_word::Memory;
use std::alloc::Global;

/// Numbers of things, one of each, and how many different ones there are.
#[derive(Drop)]
struct Numbers {
    of: Vec<u32>,
    count: usize,
}

/// For each state that leads to acceptance, a state that stands for all that are alike; 0 for the others.
pub(crate) fn representatives(
    alloc: Global,
    table: &Table,
    labels: &Labels,
) -> Result<Vec<u32>, Memory>
    requires { length labels.now ≡ length table.now.rows }
    ensures { IfOk result (λ listed. AreRepresentatives table.now labels.now listed.items) }
{
    let moves = reversed(alloc, table)?;
    let marks = live(alloc, table, &moves)?;
    let start = by_label(alloc, table, labels, marks.as_slice())?;
    let split = split_by_splitters(alloc, moves, start.of.as_slice(), start.count)?;
    if is_stable(table, labels, split.as_slice()) {
        return first_of_each(alloc, table, labels, split.as_slice());
    }
    let classes = refine_until_stable(alloc, table, labels, split.as_slice())?;
    first_of_each(alloc, table, labels, classes.as_slice())
}

/// Class 0 for what leads to no acceptance; the other states that don't accept are in a class of their own, and those
/// that do in one for each label. Classes are numbered below the count.
fn by_label(
    alloc: Global,
    table: &Table,
    labels: &Labels,
    marks: &[bool],
) -> Result<Numbers, Memory>
    requires labels { length labels.now ≡ length table.now.rows }
    requires one_each { length marks.now ≡ length table.now.rows + 1 }
    requires live { (state : ℕ) → IsMarked marks.now state ↔ IsLive table.now state }
    ensures classing { IfOk result (λ classes.
        IsClassing table.now labels.now classes.of.items) }
    ensures few { IfOk result (λ classes. All (λ class. class < classes.count) classes.of.items) }
{
    // A use of the table brings its invariant, by which numbers of states have room.
    let _states = table.len();
    let numbers = outputs(alloc, table, labels)?;
    let classes = first_classes(alloc, marks, numbers.of.as_slice())?;
    Ok(Numbers {
        of: classes,
        count: numbers.count + 1,
    })
}

/// The first class of each state by its mark and the number of its output, and class 0 for what is no state.
fn first_classes(alloc: Global, marks: &[bool], numbers: &[u32]) -> Result<Vec<u32>, Memory>
    requires one_each { length marks.now ≡ length numbers.now + 1 }
    requires few { All (λ number. number + 1 < 2 ^ 32) numbers.now }
    ensures { IfOk result (λ classes.
        AreByNumber marks.now numbers.now (length numbers.now + 1) classes.items) }
{
    let mut classes = Vec::with_capacity(alloc, marks.len())?;
    classes.push(0)?;
    for (place, number) in numbers.iter().enumerate() {
        classes.push(first_class(marks[place + 1], *number))?;
    }
    Ok(classes)
}

/// Numbers of what states give out: those that accept their labels, and the others nothing.
fn outputs(alloc: Global, table: &Table, labels: &Labels) -> Result<Numbers, Memory>
    requires { length labels.now ≡ length table.now.rows }
    ensures { IfOk result (λ numbers. (seen : List ℕ) × (length seen ≡ numbers.count)
        × AreNumbered (output_at table.now labels.now) (length table.now.rows) seen numbers.of.items) }
{
    let mut seen = IndexSet::new(alloc);
    let mut numbers = Vec::with_capacity(alloc, table.rows().len())?;
    for (place, accepts) in table.accepting().iter().enumerate() {
        let output = output_of(*accepts, labels.label(place));
        let (number, _) = seen.insert_full(output)?;
        numbers.push(number as u32)?;
    }
    Ok(Numbers {
        of: numbers,
        count: seen.len(),
    })
}

/// The first class of a state by whether it leads to acceptance, and the number of its output.
fn first_class(leads: bool, number: u32) -> u32
    requires { number + 1 < 2 ^ 32 }
    ensures { result ≡ first_class leads number }
{
    if leads { number + 1 } else { 0 }
}

/// What a state gives out: one more than its label where it accepts, and else 0.
fn output_of(accepts: bool, label: u32) -> u64
    ensures { result ≡ (if accepts then suc label else 0) }
{
    if accepts { u64::from(label) + 1 } else { 0 }
}

/// For each state the first of its class, and 0 for class 0.
fn first_of_each(
    alloc: Global,
    table: &Table,
    labels: &Labels,
    classes: &[u32],
) -> Result<Vec<u32>, Memory>
    requires classing { IsClassing table.now labels.now classes.now }
    requires stable { IsStable table.now labels.now classes.now }
    requires small { (state : ℕ) → class_of classes.now state ≤ length table.now.rows }
    ensures { IfOk result (λ listed. AreRepresentatives table.now labels.now listed.items) }
{
    let mut firsts = vec![in alloc; 0; classes.len()]?;
    let mut listed = Vec::new(alloc);
    for state in 1..classes.len() {
        let class = classes[state] as usize;
        if class != 0 && firsts[class] == 0 {
            firsts[class] = state as u32;
        }
        listed.push(firsts[class])?;
    }
    Ok(listed)
}
