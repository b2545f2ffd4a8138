//! The gate of a case, at which the workers of its run are counted, and meet.

use kb_io::{Gate, Point};
use std::sync::atomic::{AtomicU64, Ordering};

/// As many turns as a worker waits for another: a turn is one look at who has come.
const TURNS: u32 = 50_000_000;

/// A gate that notes which workers come to it, and which of them draw after something was entered, which is in
/// a later pass than the first. Where workers are to meet, the one who comes first waits before its first draw
/// until another has come.
#[derive(Drop)]
pub(crate) struct Meeting {
    /// Whether the first waits.
    waits: bool,
    /// A bit for each worker who has come.
    came: AtomicU64,
    /// 1 where a worker has come to enter.
    entered: AtomicU64,
    /// A bit for each worker who has come to draw after that.
    later: AtomicU64,
    /// 1 where the first waited in vain.
    missed: AtomicU64,
}

impl Meeting {
    /// A gate to which nobody has come, at which so many workers are to meet. One meets nobody.
    pub(crate) fn of(workers: usize) -> Meeting {
        Meeting {
            waits: workers > 1,
            came: AtomicU64::new(0),
            entered: AtomicU64::new(0),
            later: AtomicU64::new(0),
            missed: AtomicU64::new(0),
        }
    }

    /// How many workers have come.
    pub(crate) fn workers(&self) -> u32 {
        self.came.load(Ordering::SeqCst).count_ones()
    }

    /// How many workers have come in a later pass than the first.
    pub(crate) fn later_workers(&self) -> u32 {
        self.later.load(Ordering::SeqCst).count_ones()
    }

    /// Whether the first waited in vain.
    pub(crate) fn is_missed(&self) -> bool {
        self.missed.load(Ordering::SeqCst) != 0
    }

    /// Waits, with this bit, until another has come.
    fn wait(&self, own: u64) {
        for _ in 0..TURNS {
            if self.came.load(Ordering::SeqCst) != own {
                return;
            }
        }
        self.missed.store(1, Ordering::SeqCst);
    }

    /// Notes that the worker with this bit has come to this point, for what is said of later passes.
    fn note_pass(&self, own: u64, point: Point) {
        match point {
            Point::Enter => self.entered.store(1, Ordering::SeqCst),
            Point::Draw if self.entered.load(Ordering::SeqCst) != 0 => {
                self.later.fetch_or(own, Ordering::SeqCst);
            }
            Point::Draw | Point::Sift => {}
        }
    }
}

impl Gate for Meeting {
    fn at(&self, worker: u32, point: Point) {
        // Workers are numbered from 1 to 64.
        let own = 1u64 << (worker % 64);
        let earlier = self.came.fetch_or(own, Ordering::SeqCst);
        self.note_pass(own, point);
        if self.waits && earlier == 0 && point == Point::Draw {
            self.wait(own);
        }
    }
}
