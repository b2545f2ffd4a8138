//! What a log is refused for.

ghost use Rattle.std.specs.Prelude.{◌≡◌};
ghost use Rattle.kb_proof.specs.declared.error.LogError.TheVariants as errors;

use kb_word::Memory;
use std::alloc::{AllocError, AllocFailed};
use thiserror::Error;

/// Why bytes are no log.
#[derive(Clone, Copy, Debug, PartialEq, Eq, Error)]
pub enum LogError {
    /// The first line that is not as it would be printed has this number, from 1 on.
    #[error("E25 LogSyntax at line {line}")]
    Syntax { line: u64 },
    /// The first line names a version that there isn't.
    #[error("E26 LogVersion")]
    Version,
    /// Memory ran out.
    #[error("no memory")]
    Memory,
}

impl From<Memory> for LogError {
    ghost from_gives = { λ _ error. error ≡ errors.Memory };

    fn from(_: Memory) -> LogError {
        LogError::Memory
    }
}

impl From<AllocError> for LogError {
    ghost from_gives = { λ _ error. error ≡ errors.Memory };

    fn from(_: AllocError) -> LogError {
        LogError::Memory
    }
}

impl<T: Drop> From<AllocFailed<T>> for LogError {
    ghost from_gives = { λ _ error. error ≡ errors.Memory };

    fn from(_: AllocFailed<T>) -> LogError {
        LogError::Memory
    }
}
