//! A source over memory that never fails.

ghost use Rattle.std.specs.Prelude.{◌≡◌, ◌≤◌, ℕ, List, ◌++◌, length, min, take, drop, true};

use crate::failed::Failed;
use crate::source::Source;
use std::marker::Model;

/// Bytes in memory, read from the front. Contracts see it as the bytes that are left.
#[derive(Drop)]
pub struct WholeSource {
    bytes: Vec<u8>,
    taken: usize,
}

impl Model for WholeSource {
    ghost use Rattle.std.specs.Prelude.{ℕ, List, ◌≤◌, length, drop};

    ghost Value = { List ℕ };

    ghost view = { λ source. drop source.taken source.bytes.items };

    ghost invariant = { λ source. source.taken ≤ length source.bytes.items };
}

impl WholeSource {
    /// A source of these bytes.
    pub fn new(bytes: Vec<u8>) -> WholeSource
        ensures { result ≡ bytes.items }
    {
        WholeSource { bytes, taken: 0 }
    }

    /// Moves as many bytes as there are, as the buffer takes and as are allowed.
    pub(crate) fn take(&mut self, buf: &mut [u8], most: usize) -> usize
        ensures count { result ≡ min most (min (length buf.old) (length self.old)) }
        ensures moved { self.old ≡ take result buf.new ++ self.new }
    {
        let left = &self.bytes[self.taken..];
        let count = most.min(buf.len()).min(left.len());
        buf[..count].copy_from_slice(&left[..count]);
        self.taken += count;
        count
    }
}

impl Source for WholeSource {
    ghost state = { λ source. record { told = true; left = source; faults = 0 } };

    fn read(&mut self, buf: &mut [u8]) -> Result<usize, Failed> {
        let most = buf.len();
        Ok(self.take(buf, most))
    }
}
