//! Where the rows of a version are handed out while its book is settled further.

use kb_share::Apart;
use kb_word::Memory;
use std::alloc::Global;
use std::mem;
use std::ops::Range;
use std::sync::{Condvar, Mutex, Wait};

/// A worker takes so many rows at a time.
const ROWS: usize = 32;

/// The rows of the version that was published last, of which workers take some at a time, and what they found in them.
/// Who finds nothing to take waits until something changes.
#[derive(Drop)]
pub(crate) struct Desk {
    state: Mutex<Sweep>,
    changed: Condvar,
}

/// How far the sweep of a version has come.
#[derive(Drop)]
struct Sweep {
    /// The rows that nobody has taken yet.
    rows: Range<usize>,
    /// Lines from this number on are new.
    from: u64,
    /// How many workers have rows in hand.
    in_hand: usize,
    found: Vec<Apart>,
    /// Whether memory ran out in a worker's hands.
    failed: bool,
    /// Whether there will be no further sweep.
    over: bool,
}

/// Some rows, in which overlaps are sifted of which one line has the number `from` or a later one.
#[derive(Drop)]
pub(crate) struct Rows {
    pub rows: Range<usize>,
    pub from: u64,
}

impl Desk {
    /// A desk with no rows.
    pub(crate) fn new(alloc: Global) -> Desk {
        Desk {
            state: Mutex::new(Sweep {
                rows: 0..0,
                from: 0,
                in_hand: 0,
                found: Vec::new(alloc),
                failed: false,
                over: false,
            }),
            changed: Condvar::new(),
        }
    }

    /// Hands out the rows of a version that was published, so many.
    pub(crate) fn begin<T: Wait>(&self, rt: &T, rows: usize, from: u64) {
        let mut sweep = self.state.lock(rt);
        sweep.rows = 0..rows;
        sweep.from = from;
        drop(sweep);
        self.changed.notify_all();
    }

    /// No rows will be handed out any more.
    pub(crate) fn close<T: Wait>(&self, rt: &T) {
        self.state.lock(rt).over = true;
        self.changed.notify_all();
    }

    /// The next rows, for which it waits, or none where there won't be any more.
    pub(crate) fn next<T: Wait>(&self, rt: &T) -> Option<Rows> {
        let mut sweep = self
            .changed
            .wait_while(rt, self.state.lock(rt), |sweep| sweep.waits());
        sweep.take()
    }

    /// Some of the rows that nobody has taken yet, if there are any.
    pub(crate) fn rest<T: Wait>(&self, rt: &T) -> Option<Rows> {
        self.state.lock(rt).take()
    }

    /// Brings back what was found in rows that were taken, or that memory ran out.
    pub(crate) fn bring<T: Wait>(&self, rt: &T, found: &[Apart], swept: Result<(), Memory>) {
        let mut sweep = self.state.lock(rt);
        sweep.bring(found, swept);
        drop(sweep);
        self.changed.notify_all();
    }

    /// What was found in all rows, for which it waits.
    pub(crate) fn all_found<T: Wait>(&self, rt: &T, alloc: Global) -> Result<Vec<Apart>, Memory> {
        let mut sweep = self
            .changed
            .wait_while(rt, self.state.lock(rt), |sweep| sweep.is_in_hand());
        if sweep.failed {
            return Err(Memory);
        }
        Ok(mem::replace(&mut sweep.found, Vec::new(alloc)))
    }
}

impl Sweep {
    /// Whether a worker has to wait for rows.
    fn waits(&self) -> bool {
        !self.over && self.rows.is_empty()
    }

    /// Whether somebody has rows in hand.
    fn is_in_hand(&self) -> bool {
        self.in_hand > 0
    }

    /// Takes some of the rows that nobody has taken yet.
    fn take(&mut self) -> Option<Rows> {
        if self.rows.is_empty() {
            return None;
        }
        let begin = self.rows.start;
        let end = begin.saturating_add(ROWS).min(self.rows.end);
        self.rows = end..self.rows.end;
        self.in_hand = self.in_hand.saturating_add(1);
        Some(Rows {
            rows: begin..end,
            from: self.from,
        })
    }

    /// Adds what was found in rows that were taken.
    fn bring(&mut self, found: &[Apart], swept: Result<(), Memory>) {
        self.in_hand = self.in_hand.saturating_sub(1);
        if swept.is_err() || self.found.extend_from_slice(found).is_err() {
            self.failed = true;
        }
    }
}
