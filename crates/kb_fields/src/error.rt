//! Why a value gives no names of generators.

ghost use Rattle.std.specs.Prelude.{◌≡◌};
ghost use Rattle.kb_fields.specs.declared.error.NamesFault.TheVariants as faults;

use kb_word::{Memory, OwnedText};
use std::alloc::{AllocError, AllocFailed};

/// Why a value gives no names of generators.
#[derive(Debug, Drop)]
pub enum NamesFault {
    /// The value is no list of Names.
    WrongKind,
    /// More than 1,000 names.
    TooMany,
    /// A name stands twice, or is `IdWord` or `_`.
    Taken { name: OwnedText },
    /// Memory ran out.
    Memory,
}

impl From<Memory> for NamesFault {
    ghost from_gives = { λ _ fault. fault ≡ faults.Memory };

    fn from(_: Memory) -> NamesFault {
        NamesFault::Memory
    }
}

impl From<AllocError> for NamesFault {
    ghost from_gives = { λ _ fault. fault ≡ faults.Memory };

    fn from(_: AllocError) -> NamesFault {
        NamesFault::Memory
    }
}

impl<T: Drop> From<AllocFailed<T>> for NamesFault {
    ghost from_gives = { λ _ fault. fault ≡ faults.Memory };

    fn from(_: AllocFailed<T>) -> NamesFault {
        NamesFault::Memory
    }
}
