//! The check of one row, of the overlaps in which one rule begins first, and of all rows as work to be shared out.

ghost use Rattle.std.specs.Prelude.{◌≡◌, ◌^◌, ◌<◌, ◌≤◌, IfOk, Some, length, slice_get};
ghost use Rattle.kb_overlap.specs.Overlapping.{AreOverlaps};
ghost use Rattle.kb_confluence.specs.Rows.{IsRowVerdict};

use crate::confluence::Verdict;
use crate::shares::RowShare;
use kb_draw::Work;
use kb_overlap::{Joinability, LeftSides, Overlap, PairWorkspace};
use kb_rules::{Reducer, Rule};
use kb_word::Memory;
use std::alloc::Global;

/// The rows of a list of rules, and all that the check of a row reads. Row i has the overlaps in which rule i begins
/// first.
#[derive(Drop)]
pub struct Rows<'r, R: Reducer> {
    alloc: Global,
    rules: &'r [Rule],
    reducer: &'r R,
    left_sides: LeftSides<'r>,
    ghost reducer_of: { R.rules reducer.now ≡ rules.now },
    ghost sides_of: { left_sides ≡ rules.now },
    ghost few: { length rules.now ≤ 2 ^ 31 },
}

/// The memory that checks work in, kept from one row to the next. What it holds before and after counts for nothing.
#[derive(Drop)]
pub struct Buffers {
    pub(crate) overlaps: Vec<Overlap>,
    pub(crate) pair: PairWorkspace,
}

impl Buffers {
    /// Buffers that have taken no memory yet.
    pub fn new(alloc: Global) -> Buffers {
        Buffers {
            overlaps: Vec::new(alloc),
            pair: PairWorkspace::new(alloc),
        }
    }
}

impl<'r, R: Reducer> Rows<'r, R> {
    /// The rows of these rules.
    pub fn of(alloc: Global, rules: &'r [Rule], reducer: &'r R) -> Result<Rows<'r, R>, Memory>
        requires reducer { R.rules reducer.now ≡ rules.now }
        requires size { length rules.now ≤ 2 ^ 31 }
        ensures { IfOk result (λ rows. rows.rules.now ≡ rules.now) }
    {
        let left_sides = LeftSides::of(alloc, rules)?;
        Ok(Rows {
            alloc,
            rules,
            reducer,
            left_sides,
        })
    }

    /// The verdict on the row of this index.
    fn check(&self, i: usize, buffers: &mut Buffers) -> Result<Verdict, Memory>
        requires { i < length self.now.rules.now }
        ensures { IfOk result (IsRowVerdict self.now.rules.now i) }
    {
        let first = &self.rules[i];
        let Buffers { overlaps, pair } = buffers;
        self.left_sides.overlaps(first.left(), overlaps)?;
        self.check_overlaps(i, first, overlaps, pair)
    }

    /// The verdict on the row of this index, by all overlaps of its rule's left side.
    fn check_overlaps(
        &self,
        i: usize,
        first: &Rule,
        overlaps: &[Overlap],
        pair: &mut PairWorkspace,
    ) -> Result<Verdict, Memory>
        requires first { slice_get self.now.rules.now i ≡ Some first.now }
        requires overlaps { AreOverlaps self.now.rules.now first.now.0 overlaps.now }
        ensures { IfOk result (IsRowVerdict self.now.rules.now i) }
    {
        for overlap in overlaps {
            let (j, place) = (overlap.rule, overlap.place as u64);
            let second = &self.rules[j];
            // A rule with itself at place 0 is one replacement, and no overlap.
            if i == j && place == 0 {
                continue;
            }
            match pair.join(self.reducer, first, second, place)? {
                Joinability::Joined => {}
                Joinability::Apart => {
                    let (i, j) = (i as u32 + 1, j as u32 + 1);
                    let (u, v) = pair.take(self.alloc);
                    return Ok(Verdict::No { i, j, place, u, v });
                }
            }
        }
        Ok(Verdict::Yes)
    }
}

/// A part is a row. A share doesn't check the rows after the one that its verdict names.
impl<'r, R: Reducer> Work for Rows<'r, R> {
    ghost use Rattle.std.specs.Prelude.{◌+◌, ◌<◌, length};
    ghost use Rattle.kb_confluence.specs.Rows.{NamesFirst, RowIsJoined, named_row};

    type Share = RowShare;

    ghost parts = { λ rows. length rows.rules.now };

    ghost sound = { λ rows share. NamesFirst rows.rules.now share.verdict };

    ghost done = { λ rows share row. row + 1 < named_row share.verdict → RowIsJoined rows.rules.now row };

    fn parts(&self) -> u64 {
        self.rules.len() as u64
    }

    fn begin(&self, alloc: Global, _worker: u32) -> Result<RowShare, Memory> {
        Ok(RowShare {
            buffers: Buffers::new(alloc),
            verdict: Verdict::Yes,
        })
    }

    fn take(&self, row: u64, share: &mut RowShare) -> Result<(), Memory> {
        // A row after one that isn't joined can't change the verdict.
        if share.verdict.named_row() <= row {
            return Ok(());
        }
        match self.check(row as usize, &mut share.buffers)? {
            Verdict::Yes => {}
            no => share.verdict = no,
        }
        Ok(())
    }
}
