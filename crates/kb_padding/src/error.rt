//! Why a table is none of an automaton of pairs.

ghost use Rattle.std.specs.Prelude.{◌≡◌};
ghost use Rattle.kb_padding.specs.declared.error.PaddingFault.TheVariants as faults;

use kb_word::Memory;
use std::alloc::{AllocError, AllocFailed};

/// Why a table is none of an automaton of pairs.
#[derive(Debug, Drop)]
pub enum PaddingFault {
    /// It accepts a text that is not padded.
    Inside,
    /// Memory ran out.
    Memory,
}

impl From<Memory> for PaddingFault {
    ghost from_gives = { λ _ fault. fault ≡ faults.Memory };

    fn from(_: Memory) -> PaddingFault {
        PaddingFault::Memory
    }
}

impl From<AllocError> for PaddingFault {
    ghost from_gives = { λ _ fault. fault ≡ faults.Memory };

    fn from(_: AllocError) -> PaddingFault {
        PaddingFault::Memory
    }
}

impl<T: Drop> From<AllocFailed<T>> for PaddingFault {
    ghost from_gives = { λ _ fault. fault ≡ faults.Memory };

    fn from(_: AllocFailed<T>) -> PaddingFault {
        PaddingFault::Memory
    }
}
