//! Why a construction gives no automaton.

ghost use Rattle.std.specs.Prelude.{◌≡◌};
ghost use Rattle.kb_explore.specs.declared.det.Det.TheVariants.{Memory as NoMemory};

use kb_word::Memory;
use std::alloc::{AllocError, AllocFailed};
use std::fmt;

/// Why a construction gives no automaton.
#[derive(Clone, Copy, Debug, PartialEq, Eq)]
pub enum Det {
    /// It has more states than the limit.
    TooManyStates {
        /// The most states that were allowed.
        limit: u32,
    },
    /// Memory ran out.
    Memory,
}

impl fmt::Display for Det {
    fn fmt<W: fmt::Write>(&self, f: &mut fmt::Formatter<W>) -> fmt::Result {
        match self {
            Det::TooManyStates { limit } => write!(f, "more than {limit} states"),
            Det::Memory => write!(f, "no memory"),
        }
    }
}

impl std::error::Error for Det {}

impl From<Memory> for Det {
    ghost from_gives = { λ _ det. det ≡ NoMemory };

    fn from(_: Memory) -> Det {
        Det::Memory
    }
}

impl From<AllocError> for Det {
    ghost from_gives = { λ _ det. det ≡ NoMemory };

    fn from(_: AllocError) -> Det {
        Det::Memory
    }
}

impl<T: Drop> From<AllocFailed<T>> for Det {
    ghost from_gives = { λ _ det. det ≡ NoMemory };

    fn from(_: AllocFailed<T>) -> Det {
        Det::Memory
    }
}
