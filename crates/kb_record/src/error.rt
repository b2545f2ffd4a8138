//! What is refused, with the place or the name that the message gives.

ghost use Rattle.kb_record.specs.declared.error.RecordError.TheVariants as record_errors;
ghost use Rattle.kb_record.specs.declared.error.WordError.TheVariants as word_errors;
ghost use Rattle.std.specs.Prelude.{◌≡◌};

use kb_word::{Memory, OwnedText};
use std::alloc::AllocError;
use thiserror::Error;

/// Why bytes are no text of a record.
#[derive(Debug, Drop, Error)]
pub enum RecordError {
    /// The longest front of the bytes with which some text begins has `at` bytes.
    #[error("E1 Syntax at {at}")]
    Syntax { at: usize },
    /// The bracket at place `at` would be the 65th that is open.
    #[error("E2 TooDeep at {at}")]
    TooDeep { at: usize },
    /// Memory ran out.
    #[error("no memory")]
    Memory,
}

/// Why bytes are no word of a presentation.
#[derive(Debug, Drop, Error)]
pub enum WordError {
    /// The longest front of the bytes with which some word begins has `at` bytes.
    #[error("E1 Syntax at {at}")]
    Syntax { at: usize },
    /// The bracket at place `at` would be the 65th that is open.
    #[error("E2 TooDeep at {at}")]
    TooDeep { at: usize },
    /// A name that is no generator's.
    #[error("E10 UnknownGenerator {name}")]
    UnknownGenerator { name: OwnedText },
    /// The first letter without inverse under a power below 0.
    #[error("E11 NoInverse {name}")]
    NoInverse { name: OwnedText },
    /// A word, or a factor, group or product in it, of more than 65,535 letters.
    #[error("E13 WordTooLong")]
    WordTooLong,
    /// Memory ran out.
    #[error("no memory")]
    Memory,
}

impl From<Memory> for RecordError {
    ghost from_gives = { λ _ error. error ≡ record_errors.Memory };

    fn from(_: Memory) -> RecordError {
        RecordError::Memory
    }
}

impl From<AllocError> for RecordError {
    ghost from_gives = { λ _ error. error ≡ record_errors.Memory };

    fn from(_: AllocError) -> RecordError {
        RecordError::Memory
    }
}

impl From<Memory> for WordError {
    ghost from_gives = { λ _ error. error ≡ word_errors.Memory };

    fn from(_: Memory) -> WordError {
        WordError::Memory
    }
}

impl From<RecordError> for WordError {
    ghost use Rattle.kb_record.specs.Refusals.{SameRefusal};

    ghost from_gives = { λ refusal error. SameRefusal refusal error };

    fn from(refusal: RecordError) -> WordError {
        match refusal {
            RecordError::Syntax { at } => WordError::Syntax { at },
            RecordError::TooDeep { at } => WordError::TooDeep { at },
            RecordError::Memory => WordError::Memory,
        }
    }
}
