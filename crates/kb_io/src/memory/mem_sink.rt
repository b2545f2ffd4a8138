//! A sink over memory that takes pieces and fails where it is told to.

ghost use Rattle.std.specs.Prelude.{◌≡◌, ◌<◌, ◌≤◌, ◌++◌, [], true, is_err, IfOk, OnErr, length, take};
ghost use Rattle.kb_io.specs.Calls.{CountsCall, no_calls};

use super::calls::FailingCalls;
use super::whole_sink::WholeSink;
use crate::failed::Failed;
use crate::sink::Sink;
use std::alloc::Global;
use std::marker::Model;
use std::sync::Wait;

/// Bytes in memory, written at the end, at most `piece` a call. Contracts see what was written, the
/// piece and the calls. Where memory runs out a write waits until there is some.
#[derive(Drop)]
pub struct MemSink<R> {
    sink: WholeSink<R>,
    piece: usize,
    calls: FailingCalls,
}

impl<R> Model for MemSink<R> {
    ghost use Rattle.std.specs.Prelude.{◌<◌};
    ghost use Rattle.kb_io.specs.Bytes.{Stream};

    ghost Value = { Stream };

    ghost view = { λ it. record { bytes = it.sink; piece = it.piece; calls = it.calls } };

    ghost invariant = { λ it. 0 < it.piece };
}

impl<R: Wait> MemSink<R> {
    /// A sink to which nothing is written, whose writes with these numbers, counted from 1, are to fail.
    pub fn new(alloc: Global, rt: R, piece: usize, failing: Vec<u64>) -> MemSink<R>
        requires { 0 < piece }
        ensures bytes { result.bytes ≡ [] }
        ensures piece { result.piece ≡ piece }
        ensures calls { result.calls ≡ no_calls failing.items }
    {
        MemSink {
            sink: WholeSink::new(alloc, rt),
            piece,
            calls: FailingCalls::new(failing),
        }
    }

    /// What was written.
    pub fn written(&self) -> &[u8]
        ensures { result.now ≡ self.now.bytes }
    {
        self.sink.written()
    }
}

impl<R: Wait> Sink for MemSink<R> {
    ghost state = { λ sink. record { told = true; written = sink.bytes; faults = sink.calls.faults } };

    /// Takes at most `piece` bytes, and fails exactly where the number of the call is to fail.
    fn write(&mut self, bytes: &[u8]) -> Result<usize, Failed>
        requires { 0 < length bytes.now }
        ensures some { IfOk result (λ taken. (0 < taken) × (taken ≤ length bytes.now)) }
        ensures most { IfOk result (λ taken. taken ≤ self.old.piece) }
        ensures appended { IfOk result (λ taken. self.new.bytes ≡ self.old.bytes ++ take taken bytes.now) }
        ensures kept { OnErr result (self.new.bytes ≡ self.old.bytes) }
        ensures piece { self.new.piece ≡ self.old.piece }
        ensures calls { CountsCall (is_err result) self.old.calls self.new.calls }
    {
        if self.calls.next_fails() {
            return Err(Failed);
        }
        let count = self.piece.min(bytes.len());
        self.sink.append(&bytes[..count]);
        Ok(count)
    }
}
