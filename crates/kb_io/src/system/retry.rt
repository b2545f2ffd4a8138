//! Calls of the system that are made again where a signal cut them short.

ghost use Rattle.std.specs.Prelude.{◌≡◌, ◌<◌, ◌≤◌, IfOk, length, take};
ghost use Rattle.std.specs.Io.KnownBytes.{Consumes, IsAtEnd};

use crate::failed::Failed;
use std::io::{ErrorKind, Read};

/// One read, made again where a signal cut it short.
pub(crate) fn read_some<F: Read>(from: &mut F, buf: &mut [u8]) -> Result<usize, Failed>
    ensures room { IfOk result (λ count. count ≤ length buf.new) }
    ensures moved { IfOk result (λ count.
        Consumes (F.remaining from.old) (F.remaining from.new) (take count buf.new)) }
    ensures end { IfOk result (λ count.
        count ≡ 0 → 0 < length buf.old → IsAtEnd (F.remaining from.new)) }
{
    for _ in 0..u64::MAX {
        match from.read(buf) {
            Ok(count) => return Ok(count),
            Err(error) if error.kind() == ErrorKind::Interrupted => {}
            Err(_) => return Err(Failed),
        }
    }
    Err(Failed)
}

/// One write, made again where a signal cut it short. A stream that takes nothing has failed.
pub(crate) fn print_some<P: Print>(to: &P, bytes: &[u8]) -> Result<usize, Failed>
    ensures { IfOk result (λ taken. (0 < taken) × (taken ≤ length bytes.now)) }
{
    for _ in 0..u64::MAX {
        match to.write_some(bytes) {
            Ok(0) => return Err(Failed),
            Ok(count) => return Ok(count),
            Err(error) if error.kind() == ErrorKind::Interrupted => {}
            Err(_) => return Err(Failed),
        }
    }
    Err(Failed)
}
