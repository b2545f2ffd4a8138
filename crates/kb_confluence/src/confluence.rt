//! The test for confluence.

ghost use Rattle.std.specs.Prelude.{◌≡◌, ◌↔◌, ◌^◌, ◌≤◌, IfOk, IsTrue, length};
ghost use Rattle.kb_overlap.specs.Composite.{PrimesAreJoined};
ghost use Rattle.kb_word.specs.Overlap.{IsConfluent};
ghost use Rattle.kb_confluence.specs.Answers.{IsVerdict, GivesCounterexample};

use crate::prime_rows::PrimeRows;
use crate::rows::Rows;
use crate::shares::{all_joined, earliest};
use kb_draw::{Crew, share_out};
use kb_index::Automaton;
use kb_io::{Gate, Point};
use kb_overlap::composite_overlaps_need_no_look;
use kb_rules::{Reducer, Rule, Rules};
use kb_word::{Memory, Word};
use std::alloc::Global;
use std::sync::Wait;
use std::thread::Threads;

/// So many rules are shared among several workers. For fewer, threads cost more than they gain.
const FEW_RULES: usize = 32;

/// What the test finds.
#[derive(Debug, Drop)]
pub enum Verdict {
    /// The rules are confluent.
    Yes,
    /// The first overlap, by `i`, then `j`, then `place`, whose critical pair is apart.
    No {
        /// The rule that begins first, numbered from 1 in list order.
        i: u32,
        /// The rule whose left side begins within that of rule `i`.
        j: u32,
        /// The place of rule `i`'s left side at which that of rule `j` begins.
        place: u64,
        /// The normal form of the overlap's word after rule `i` is applied.
        u: Word,
        /// The normal form of the overlap's word after rule `j` is applied.
        v: Word,
    },
}

/// Whether the rules are confluent, by the normal forms of critical pairs: those of the prime overlaps, and
/// where one of them is apart, those of all overlaps in their order. Where there are few rules the first of the
/// workers looks at them alone; how many workers there are changes nothing of the verdict.
pub fn check<R: Reducer + Sync, G: Gate, T: Threads + Wait + Sync>(
    rt: &T,
    alloc: Global,
    rules: &Rules,
    reducer: &R,
    crew: &Crew<'_, G>,
) -> Result<Verdict, Memory>
    requires reducer { R.rules reducer.now ≡ rules.now.rules }
    requires size { length rules.now.rules ≤ 2 ^ 31 }
    ensures verdict { IfOk result (IsVerdict rules.now.rules) }
    ensures confluent { IfOk result
        (λ verdict. (verdict ≡ Verdict.Yes) ↔ IsConfluent rules.now.rules) }
    ensures counterexample { IfOk result (GivesCounterexample rules.now.rules) }
{
    verdict_on(rt, alloc, rules, reducer, crew)
}

/// The verdict on these rules.
fn verdict_on<R: Reducer + Sync, G: Gate, T: Threads + Wait + Sync>(
    rt: &T,
    alloc: Global,
    rules: &Rules,
    reducer: &R,
    crew: &Crew<'_, G>,
) -> Result<Verdict, Memory>
    requires reducer { R.rules reducer.now ≡ rules.now.rules }
    requires size { length rules.now.rules ≤ 2 ^ 31 }
    ensures { IfOk result (IsVerdict rules.now.rules) }
{
    // A use of the list brings its invariant, that the rules decrease.
    let list = rules.as_slice();
    if primes_are_joined(rt, alloc, rules, reducer, crew)? {
        composite_overlaps_need_no_look();
        return Ok(Verdict::Yes);
    }
    // A pair that is apart is known: from here on it is looked for the first one.
    crew.gate().at(1, Point::Enter);
    check_rules(rt, alloc, list, reducer, crew)
}

/// Whether each prime overlap of these rules is joined.
fn primes_are_joined<R: Reducer + Sync, G: Gate, T: Threads + Wait + Sync>(
    rt: &T,
    alloc: Global,
    rules: &Rules,
    reducer: &R,
    crew: &Crew<'_, G>,
) -> Result<bool, Memory>
    requires reducer { R.rules reducer.now ≡ rules.now.rules }
    requires size { length rules.now.rules ≤ 2 ^ 31 }
    ensures { IfOk result (λ joined. IsTrue joined → PrimesAreJoined rules.now.rules) }
{
    let automaton = Automaton::of(alloc, rules.as_slice())?;
    let rows = PrimeRows::of(alloc, rules, reducer, &automaton);
    let shares = share_out(rt, alloc, &rows, &crew_for(rules.len(), crew))?;
    Ok(all_joined(&shares))
}

/// The verdict by all overlaps of these rules.
fn check_rules<R: Reducer + Sync, G: Gate, T: Threads + Wait + Sync>(
    rt: &T,
    alloc: Global,
    rules: &[Rule],
    reducer: &R,
    crew: &Crew<'_, G>,
) -> Result<Verdict, Memory>
    requires reducer { R.rules reducer.now ≡ rules.now }
    requires size { length rules.now ≤ 2 ^ 31 }
    ensures { IfOk result (IsVerdict rules.now) }
{
    let rows = Rows::of(alloc, rules, reducer)?;
    let shares = share_out(rt, alloc, &rows, &crew_for(rules.len(), crew))?;
    Ok(earliest(shares))
}

/// The workers who share so many rules: one where they are few.
fn crew_for<'g, G: Gate>(rules: usize, crew: &Crew<'g, G>) -> Crew<'g, G> {
    if rules < FEW_RULES {
        crew.first()
    } else {
        crew.copy()
    }
}
