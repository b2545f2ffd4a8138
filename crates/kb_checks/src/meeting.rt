//! The gate at which two workers meet.

use kb_io::{Gate, Point};
use std::sync::atomic::{AtomicU64, Ordering};

/// As many turns as a worker waits at the meeting: a turn is one look at the other. On a busy machine the other may be
/// long in coming.
const TURNS: u64 = 10_000_000_000;

/// A gate that holds each of two workers where it comes to a point for the first time, until the other is there too. At
/// entering it holds them the second time as well, so that each has entered an overlap then, if there are so many.
#[derive(Drop)]
pub(crate) struct Meeting {
    draw: AtomicU64,
    sift: AtomicU64,
    enter: AtomicU64,
    enter_again: AtomicU64,
    missed: AtomicU64,
}

impl Meeting {
    /// A gate that nobody has come to.
    pub(crate) fn new() -> Meeting {
        Meeting {
            draw: AtomicU64::new(0),
            sift: AtomicU64::new(0),
            enter: AtomicU64::new(0),
            enter_again: AtomicU64::new(0),
            missed: AtomicU64::new(0),
        }
    }

    /// Whether a worker waited in vain.
    pub(crate) fn was_missed(&self) -> bool {
        self.missed.load(Ordering::SeqCst) != 0
    }

    /// Where a worker has not come to a meeting yet, it waits there for the other. Whether it had come before.
    fn meet(&self, arrived: &AtomicU64, worker: u32) -> bool {
        let own = if worker == 1 { 1 } else { 2 };
        if arrived.fetch_or(own, Ordering::SeqCst) & own != 0 {
            return true;
        }
        for _ in 0..TURNS {
            if arrived.load(Ordering::SeqCst) == 3 {
                return false;
            }
        }
        self.missed.store(1, Ordering::SeqCst);
        false
    }
}

impl Gate for Meeting {
    fn at(&self, worker: u32, point: Point) {
        match point {
            Point::Draw => {
                self.meet(&self.draw, worker);
            }
            Point::Sift => {
                self.meet(&self.sift, worker);
            }
            Point::Enter => {
                if self.meet(&self.enter, worker) {
                    self.meet(&self.enter_again, worker);
                }
            }
        }
    }
}
