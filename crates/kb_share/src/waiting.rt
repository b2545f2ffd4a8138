//! Overlaps that wait to be entered.

ghost use Rattle.std.specs.Prelude.{◌≡◌, ◌<◌, IfNone, IfSome};

use crate::found::Apart;
use kb_word::Memory;
use std::alloc::Global;
use std::cmp::Reverse;
use std::collections::BinaryHeap;
use std::marker::Model;

/// As many overlaps wait at most between two passes. Those that go are found again when all rows are sifted.
const MOST: usize = 2_097_152;

/// Overlaps that were apart when they were found, the shortest first, and the number of the first line that came since.
/// So each overlap is found once: when the later one of its lines is new. Nothing is promised of what waits: it is
/// looked at again before it is entered, and that nothing is apart is known from sifting all rows alone.
#[derive(Drop)]
pub struct Waiting {
    /// Lines from this number on are new.
    from: u64,
    heap: BinaryHeap<Reverse<Apart>, Global>,
}

/// How many wait.
impl Model for Waiting {
    ghost use Rattle.std.specs.Prelude.{ℕ};
    ghost use Rattle.std.specs.BinaryHeap.{heap_len};

    ghost Value = { ℕ };

    ghost view = { λ waiting. heap_len waiting.heap };
}

impl Waiting {
    /// Nothing waits, and all lines are new.
    pub fn new(alloc: Global) -> Waiting {
        Waiting {
            from: 0,
            heap: BinaryHeap::new(alloc),
        }
    }

    /// The number of the first line that is new.
    pub fn from(&self) -> u64 {
        self.from
    }

    /// Notes that the overlaps of so many lines, which are all, were sifted.
    pub fn note_sifted(&mut self, lines: usize) {
        self.from = (lines as u64).saturating_add(1);
    }

    /// Adds overlaps that are apart.
    pub fn add_all(&mut self, found: &[Apart]) -> Result<(), Memory> {
        for one in found {
            self.heap.push(Reverse(*one))?;
        }
        Ok(())
    }

    /// Where too many wait, the longer half goes.
    pub fn thin(&mut self, alloc: Global) -> Result<(), Memory> {
        if self.heap.len() <= MOST {
            return Ok(());
        }
        let mut shortest = BinaryHeap::with_capacity(alloc, MOST / 2)?;
        for _ in 0..MOST / 2 {
            if let Some(one) = self.heap.pop() {
                shortest.push(one)?;
            }
        }
        self.heap = shortest;
        Ok(())
    }

    /// The shortest overlap, which waits no longer, if it has at most so many letters.
    pub(crate) fn take_first(&mut self, most: u64) -> Option<Apart>
        ensures some { IfSome result (λ one. self.new < self.old) }
    {
        if self.heap.peek()?.0.letters > most {
            return None;
        }
        let Reverse(first) = self.heap.pop()?;
        Some(first)
    }
}
