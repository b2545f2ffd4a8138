//! What a file of a subgroup's generators is refused for.

ghost use Rattle.kb_subfile.specs.declared.error.SubError.TheVariants as errors;
ghost use Rattle.std.specs.Prelude.{◌≡◌};

use kb_record::{RecordError, WordError};
use kb_word::{Memory, OwnedText};
use std::alloc::{AllocError, AllocFailed};
use thiserror::Error;

/// Why a text holds no generators of a subgroup. No clause speaks of the place `at`.
#[derive(Debug, Drop, Error)]
pub enum SubError {
    /// The longest front of the bytes with which some text begins has `at` bytes.
    #[error("E1 Syntax at {at}")]
    Syntax { at: usize },
    /// The bracket at place `at` would be the 65th that is open.
    #[error("E2 TooDeep at {at}")]
    TooDeep { at: usize },
    /// The field of the generators is absent.
    #[error("E4 MissingField subGenerators")]
    MissingField,
    /// Its value is no list of words.
    #[error("E5 WrongKind subGenerators")]
    WrongKind,
    /// A record has a field name twice.
    #[error("E6 FieldTwice {field}")]
    FieldTwice { field: OwnedText },
    /// A name that is no generator's.
    #[error("E10 UnknownGenerator {name}")]
    UnknownGenerator { name: OwnedText },
    /// The first letter without inverse under a power below 0.
    #[error("E11 NoInverse {name}")]
    NoInverse { name: OwnedText },
    /// A word, or a factor, group or product in it, of more than 65,535 letters.
    #[error("E13 WordTooLong")]
    WordTooLong,
    /// The words and the presentation's equations are more than 65,535 together.
    #[error("E14 TooManyEquations")]
    TooManyEquations,
    /// Memory ran out.
    #[error("no memory")]
    Memory,
}

impl From<Memory> for SubError {
    ghost from_gives = { λ _ error. error ≡ errors.Memory };

    fn from(_: Memory) -> SubError {
        SubError::Memory
    }
}

impl From<RecordError> for SubError {
    ghost use Rattle.kb_subfile.specs.Refusals.{RefusesText};

    ghost from_gives = { λ refusal error. RefusesText refusal error };

    fn from(refusal: RecordError) -> SubError {
        match refusal {
            RecordError::Syntax { at } => SubError::Syntax { at },
            RecordError::TooDeep { at } => SubError::TooDeep { at },
            RecordError::Memory => SubError::Memory,
        }
    }
}

/// The refusal for the fault of a word that stands in a text, of which the bytes were read already.
impl From<WordError> for SubError {
    ghost use Rattle.kb_subfile.specs.Refusals.{RefusesWord};

    ghost from_gives = { λ fault error. RefusesWord fault error };

    fn from(fault: WordError) -> SubError {
        match fault {
            WordError::UnknownGenerator { name } => SubError::UnknownGenerator { name },
            WordError::NoInverse { name } => SubError::NoInverse { name },
            WordError::WordTooLong => SubError::WordTooLong,
            WordError::Syntax { at } => SubError::Syntax { at },
            WordError::TooDeep { at } => SubError::TooDeep { at },
            WordError::Memory => SubError::Memory,
        }
    }
}

impl From<AllocError> for SubError {
    ghost from_gives = { λ _ error. error ≡ errors.Memory };

    fn from(_: AllocError) -> SubError {
        SubError::Memory
    }
}

impl<T: Drop> From<AllocFailed<T>> for SubError {
    ghost from_gives = { λ _ error. error ≡ errors.Memory };

    fn from(_: AllocFailed<T>) -> SubError {
        SubError::Memory
    }
}
