//! Why word lines aren't answered to the end.

use kb_record::WordError;
use kb_word::Memory;
use std::alloc::{AllocError, AllocFailed};

/// Why word lines aren't answered to the end.
#[derive(Drop)]
pub enum Stop {
    /// The line of this number, counted from 1, is refused.
    Refused { number: u32, fault: WordError },
    /// The input has more than 67,108,864 bytes.
    TooLong,
    /// The input failed.
    Input,
    /// The output failed.
    Output,
    /// Memory ran out.
    Memory,
}

impl From<AllocError> for Stop {
    ghost use Rattle.std.specs.Prelude.{◌≡◌};
    ghost use Rattle.kb_lines.specs.declared.stop.Stop.TheVariants as stops;

    ghost from_gives = { λ _ stop. stop ≡ stops.Memory };

    fn from(_: AllocError) -> Stop {
        Stop::Memory
    }
}

impl<T: Drop> From<AllocFailed<T>> for Stop {
    ghost use Rattle.std.specs.Prelude.{◌≡◌};
    ghost use Rattle.kb_lines.specs.declared.stop.Stop.TheVariants as stops;

    ghost from_gives = { λ _ stop. stop ≡ stops.Memory };

    fn from(_: AllocFailed<T>) -> Stop {
        Stop::Memory
    }
}

impl From<Memory> for Stop {
    ghost use Rattle.std.specs.Prelude.{◌≡◌};
    ghost use Rattle.kb_lines.specs.declared.stop.Stop.TheVariants as stops;

    ghost from_gives = { λ _ stop. stop ≡ stops.Memory };

    fn from(_: Memory) -> Stop {
        Stop::Memory
    }
}
