//! A sink over memory that never fails.

ghost use Rattle.std.specs.Prelude.{◌≡◌, ◌++◌, ℕ, List, [], true};

use crate::failed::Failed;
use crate::sink::Sink;
use std::alloc::Global;
use std::marker::Model;
use std::sync::Wait;

/// Bytes in memory, written at the end. Contracts see it as what was written.
///
/// Where memory runs out a write waits until there is some, so it may not return. Without that a sink
/// that grows would fail.
#[derive(Drop)]
pub struct WholeSink<R> {
    bytes: Vec<u8>,
    rt: R,
}

impl<R> Model for WholeSink<R> {
    ghost use Rattle.std.specs.Prelude.{ℕ, List};

    ghost Value = { List ℕ };

    ghost view = { λ sink. sink.bytes.items };
}

impl<R: Wait> WholeSink<R> {
    /// A sink to which nothing is written.
    pub fn new(alloc: Global, rt: R) -> WholeSink<R>
        ensures { result ≡ [] }
    {
        WholeSink {
            bytes: Vec::new(alloc),
            rt,
        }
    }

    /// What was written.
    pub fn written(&self) -> &[u8]
        ensures { result.now ≡ self.now }
    {
        self.bytes.as_slice()
    }

    /// Appends all the bytes.
    pub(crate) fn append(&mut self, bytes: &[u8])
        ensures { self.new ≡ self.old ++ bytes.now }
    {
        append_in_time(&self.rt, &mut self.bytes, bytes);
    }
}

impl<R: Wait> Sink for WholeSink<R> {
    ghost state = { λ sink. record { told = true; written = sink; faults = 0 } };

    fn write(&mut self, bytes: &[u8]) -> Result<usize, Failed> {
        self.append(bytes);
        Ok(bytes.len())
    }
}

/// Appends all the bytes, once there is memory for them.
fn append_in_time<R: Wait>(rt: &R, written: &mut Vec<u8>, bytes: &[u8])
    ensures { written.new.items ≡ written.old.items ++ bytes.now }
{
    for _ in rt.forever() {
        if written.extend_from_slice(bytes).is_ok() {
            return;
        }
    }
    unreachable!()
}
