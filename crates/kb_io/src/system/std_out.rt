//! The standard output and the standard error.

ghost use Rattle.std.specs.Prelude.{◌≡◌, [], false};

use super::faults::count_fault;
use super::retry::print_some;
use crate::failed::Failed;
use crate::sink::Sink;
use std::sync::Wait;

/// The standard output of the runtime. Contracts know none of its bytes.
#[derive(Drop)]
pub struct StdOut<R> {
    rt: R,
    faults: u64,
}

impl<R: Print + Wait> StdOut<R> {
    /// The standard output, on which nothing has failed.
    pub fn new(rt: R) -> StdOut<R>
        ensures { (⟦<StdOut<R> as Sink>⟧.state result).faults ≡ 0 }
    {
        StdOut { rt, faults: 0 }
    }
}

impl<R: Print + Wait> Sink for StdOut<R> {
    ghost state = { λ output. record { told = false; written = []; faults = output.faults } };

    fn write(&mut self, bytes: &[u8]) -> Result<usize, Failed> {
        let answer = print_some(&self.rt, bytes);
        if answer.is_err() {
            count_fault(&self.rt, &mut self.faults);
        }
        answer
    }
}

/// The standard error of the runtime, as `rt.stderr()` gives it. Contracts know none of its bytes.
#[derive(Drop)]
pub struct StdErr<E, R> {
    stream: E,
    rt: R,
    faults: u64,
}

impl<E: Print, R: Wait> StdErr<E, R> {
    /// The standard error, on which nothing has failed.
    pub fn new(stream: E, rt: R) -> StdErr<E, R>
        ensures { (⟦<StdErr<E, R> as Sink>⟧.state result).faults ≡ 0 }
    {
        StdErr {
            stream,
            rt,
            faults: 0,
        }
    }
}

impl<E: Print, R: Wait> Sink for StdErr<E, R> {
    ghost state = { λ output. record { told = false; written = []; faults = output.faults } };

    fn write(&mut self, bytes: &[u8]) -> Result<usize, Failed> {
        let answer = print_some(&self.stream, bytes);
        if answer.is_err() {
            count_fault(&self.rt, &mut self.faults);
        }
        answer
    }
}
