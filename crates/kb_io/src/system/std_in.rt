//! The standard input.

ghost use Rattle.std.specs.Prelude.{◌≡◌, [], false};

use super::faults::count_fault;
use super::retry::read_some;
use crate::failed::Failed;
use crate::source::Source;
use std::sync::Wait;

/// The standard input of the runtime. Contracts know none of its bytes.
#[derive(Drop)]
pub struct StdIn<R: Input> {
    reader: R::Reader,
    rt: R,
    faults: u64,
}

impl<R: Input + Wait> StdIn<R> {
    /// The standard input, of which nothing was read by this value and nothing has failed.
    pub fn new(rt: R) -> StdIn<R>
        ensures { (⟦<StdIn<R> as Source>⟧.state result).faults ≡ 0 }
    {
        StdIn {
            reader: rt.reader(),
            rt,
            faults: 0,
        }
    }
}

impl<R: Input + Wait> Source for StdIn<R> {
    ghost state = { λ input. record { told = false; left = []; faults = input.faults } };

    fn read(&mut self, buf: &mut [u8]) -> Result<usize, Failed> {
        let answer = read_some(&mut self.reader, buf);
        if answer.is_err() {
            count_fault(&self.rt, &mut self.faults);
        }
        answer
    }
}
