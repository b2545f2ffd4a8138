//! The test of one row by its prime overlaps, and of all rows as work to be shared out.

ghost use Rattle.std.specs.Prelude.{◌≡◌, ◌<◌, IfOk, IsTrue, Some, length, slice_get};
ghost use Rattle.kb_index.specs.Automata.{IsAutomaton};
ghost use Rattle.kb_overlap.specs.Composite.{ArePrimeOverlaps};
ghost use Rattle.kb_confluence.specs.PrimeRows.{PrimesOfRowAreJoined};

use crate::rows::Buffers;
use crate::shares::PrimeShare;
use kb_draw::Work;
use kb_index::Automaton;
use kb_overlap::{Joinability, Overlap, PairWorkspace, PrimeOverlaps};
use kb_rules::{Reducer, Rule, Rules};
use kb_word::Memory;
use std::alloc::Global;

/// The rows of a list of rules by their prime overlaps, and all that the test of a row reads. Row i has the prime
/// overlaps in which rule i begins first.
#[derive(Drop)]
pub struct PrimeRows<'r, R: Reducer> {
    rules: &'r [Rule],
    reducer: &'r R,
    primes: PrimeOverlaps<'r>,
    ghost reducer_of: { R.rules reducer.now ≡ rules.now },
    ghost primes_of: { primes ≡ rules.now },
}

impl<'r, R: Reducer> PrimeRows<'r, R> {
    /// The rows of these rules, whose automaton this is.
    pub fn of(
        alloc: Global,
        rules: &'r Rules,
        reducer: &'r R,
        automaton: &'r Automaton,
    ) -> PrimeRows<'r, R>
        requires reducer { R.rules reducer.now ≡ rules.now.rules }
        requires automaton { IsAutomaton rules.now.rules automaton.now }
        ensures { result.rules.now ≡ rules.now.rules }
    {
        PrimeRows {
            rules: rules.as_slice(),
            reducer,
            primes: PrimeOverlaps::by(alloc, rules, automaton),
        }
    }

    /// Whether each overlap of the row of this index is joined.
    fn is_joined(&self, i: usize, buffers: &mut Buffers) -> Result<bool, Memory>
        requires { i < length self.now.rules.now }
        ensures { IfOk result
            (λ joined. IsTrue joined → PrimesOfRowAreJoined self.now.rules.now i) }
    {
        let first = &self.rules[i];
        let Buffers { overlaps, pair } = buffers;
        self.primes.of_rule(i, overlaps)?;
        self.are_joined(i, first, overlaps, pair)
    }

    /// Whether each overlap of the row of this index is joined, by all of them.
    fn are_joined(
        &self,
        i: usize,
        first: &Rule,
        overlaps: &[Overlap],
        pair: &mut PairWorkspace,
    ) -> Result<bool, Memory>
        requires first { slice_get self.now.rules.now i ≡ Some first.now }
        requires overlaps { ArePrimeOverlaps self.now.rules.now i overlaps.now }
        ensures { IfOk result
            (λ joined. IsTrue joined → PrimesOfRowAreJoined self.now.rules.now i) }
    {
        for overlap in overlaps {
            let (j, place) = (overlap.rule, overlap.place as u64);
            match pair.join(self.reducer, first, &self.rules[j], place)? {
                Joinability::Joined => {}
                Joinability::Apart => return Ok(false),
            }
        }
        Ok(true)
    }
}

/// A part is a row. Once a share has a row that isn't joined it takes no more.
impl<'r, R: Reducer> Work for PrimeRows<'r, R> {
    ghost use Rattle.std.specs.Prelude.{IsTrue, length};
    ghost use Rattle.kb_confluence.specs.PrimeRows.{PrimesOfRowAreJoined};

    type Share = PrimeShare;

    ghost parts = { λ rows. length rows.rules.now };

    ghost sound = { λ rows share. Unit {0} };

    ghost done = { λ rows share row. IsTrue share.joined → PrimesOfRowAreJoined rows.rules.now row };

    fn parts(&self) -> u64 {
        self.rules.len() as u64
    }

    fn begin(&self, alloc: Global, _worker: u32) -> Result<PrimeShare, Memory> {
        Ok(PrimeShare {
            buffers: Buffers::new(alloc),
            joined: true,
        })
    }

    fn take(&self, row: u64, share: &mut PrimeShare) -> Result<(), Memory> {
        if share.joined {
            share.joined = self.is_joined(row as usize, &mut share.buffers)?;
        }
        Ok(())
    }
}
