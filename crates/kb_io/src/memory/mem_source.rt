//! A source over memory that hands over pieces and fails where it is told to.

ghost use Rattle.std.specs.Prelude.{◌≡◌, ◌↔◌, ◌<◌, ◌≤◌, ◌++◌, [], true, is_err, IfOk, OnErr, length, take};
ghost use Rattle.kb_io.specs.Calls.{CountsCall, no_calls};

use super::calls::FailingCalls;
use super::whole_source::WholeSource;
use crate::failed::Failed;
use crate::source::Source;
use std::marker::Model;

/// Bytes in memory, read from the front, at most `piece` a call. Contracts see the bytes that are left,
/// the piece and the calls.
#[derive(Drop)]
pub struct MemSource {
    source: WholeSource,
    piece: usize,
    calls: FailingCalls,
}

impl Model for MemSource {
    ghost use Rattle.std.specs.Prelude.{◌<◌};
    ghost use Rattle.kb_io.specs.Bytes.{Stream};

    ghost Value = { Stream };

    ghost view = { λ it. record { bytes = it.source; piece = it.piece; calls = it.calls } };

    ghost invariant = { λ it. 0 < it.piece };
}

impl MemSource {
    /// A source of these bytes, whose reads with these numbers, counted from 1, are to fail.
    pub fn new(bytes: Vec<u8>, piece: usize, failing: Vec<u64>) -> MemSource
        requires { 0 < piece }
        ensures bytes { result.bytes ≡ bytes.items }
        ensures piece { result.piece ≡ piece }
        ensures calls { result.calls ≡ no_calls failing.items }
    {
        MemSource {
            source: WholeSource::new(bytes),
            piece,
            calls: FailingCalls::new(failing),
        }
    }
}

impl Source for MemSource {
    ghost state = { λ source. record { told = true; left = source.bytes; faults = source.calls.faults } };

    /// Moves at most `piece` bytes, and fails exactly where the number of the call is to fail.
    fn read(&mut self, buf: &mut [u8]) -> Result<usize, Failed>
        requires { 0 < length buf.old }
        ensures room { IfOk result (λ taken. taken ≤ length buf.old) }
        ensures most { IfOk result (λ taken. taken ≤ self.old.piece) }
        ensures moved { IfOk result (λ taken. self.old.bytes ≡ take taken buf.new ++ self.new.bytes) }
        ensures end { IfOk result (λ taken. (taken ≡ 0) ↔ (self.old.bytes ≡ [])) }
        ensures kept { OnErr result (self.new.bytes ≡ self.old.bytes) }
        ensures piece { self.new.piece ≡ self.old.piece }
        ensures calls { CountsCall (is_err result) self.old.calls self.new.calls }
    {
        if self.calls.next_fails() {
            return Err(Failed);
        }
        Ok(self.source.take(buf, self.piece))
    }
}
