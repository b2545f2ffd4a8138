//! What a presentation file is refused for.

ghost use Rattle.kb_presfile.specs.Faults.{name_of};
ghost use Rattle.kb_presfile.specs.declared.error.PresError.TheVariants as errors;
ghost use Rattle.std.specs.Prelude.{◌≡◌};

use kb_fields::NamesFault;
use kb_record::{RecordError, WordError};
use kb_word::{Memory, OwnedText};
use std::alloc::{AllocError, AllocFailed};
use std::fmt;
use thiserror::Error;

/// A field that a presentation file has, or may have.
#[derive(Clone, Copy, Debug, PartialEq, Eq)]
pub enum Field {
    IsRws,
    Ordering,
    GeneratorOrder,
    Weight,
    Inverses,
    Equations,
}

impl Field {
    /// The field's name in a file.
    pub fn name(self) -> &'static str
        ensures { result.now ≡ name_of self }
    {
        match self {
            Field::IsRws => "isRWS",
            Field::Ordering => "ordering",
            Field::GeneratorOrder => "generatorOrder",
            Field::Weight => "weight",
            Field::Inverses => "inverses",
            Field::Equations => "equations",
        }
    }
}

impl fmt::Display for Field {
    fn fmt<W: fmt::Write>(&self, f: &mut fmt::Formatter<W>) -> fmt::Result {
        f.write_str(self.name())
    }
}

/// Why a text holds no presentation. No clause speaks of the place `at`.
#[derive(Debug, Drop, Error)]
pub enum PresError {
    /// The longest front of the bytes with which some text begins has `at` bytes.
    #[error("E1 Syntax at {at}")]
    Syntax { at: usize },
    /// The bracket at place `at` would be the 65th that is open.
    #[error("E2 TooDeep at {at}")]
    TooDeep { at: usize },
    /// A field that is needed is absent.
    #[error("E4 MissingField {field}")]
    MissingField { field: Field },
    /// A field's value is of another kind.
    #[error("E5 WrongKind {field}")]
    WrongKind { field: Field },
    /// A record has a field name twice.
    #[error("E6 FieldTwice {field}")]
    FieldTwice { field: OwnedText },
    /// The ordering is another than shortlex and wtlex.
    #[error("E7 OtherOrdering")]
    OtherOrdering,
    /// A generator's name stands twice, or is `IdWord` or `_`.
    #[error("E8 NameTaken {name}")]
    NameTaken { name: OwnedText },
    /// More than 1,000 generators.
    #[error("E9 TooManyGenerators")]
    TooManyGenerators,
    /// A name that is no generator's.
    #[error("E10 UnknownGenerator {name}")]
    UnknownGenerator { name: OwnedText },
    /// The first letter without inverse under a power below 0.
    #[error("E11 NoInverse {name}")]
    NoInverse { name: OwnedText },
    /// The generator whose inverse hasn't it as its inverse.
    #[error("E12 InverseNotMutual {name}")]
    InverseNotMutual { name: OwnedText },
    /// A word, or a factor, group or product in it, of more than 65,535 letters.
    #[error("E13 WordTooLong")]
    WordTooLong,
    /// More than 65,535 equations.
    #[error("E14 TooManyEquations")]
    TooManyEquations,
    /// The order goes by weight, and the list of weights hasn't one from 1 to 1,000 for each generator.
    #[error("E29 WeightsWrong")]
    WeightsWrong,
    /// Memory ran out.
    #[error("no memory")]
    Memory,
}

impl From<Memory> for PresError {
    ghost from_gives = { λ _ error. error ≡ errors.Memory };

    fn from(_: Memory) -> PresError {
        PresError::Memory
    }
}

impl From<RecordError> for PresError {
    ghost use Rattle.kb_presfile.specs.Refusals.{RefusesText};

    ghost from_gives = { λ refusal error. RefusesText refusal error };

    fn from(refusal: RecordError) -> PresError {
        match refusal {
            RecordError::Syntax { at } => PresError::Syntax { at },
            RecordError::TooDeep { at } => PresError::TooDeep { at },
            RecordError::Memory => PresError::Memory,
        }
    }
}

/// The refusal for the fault of a word that stands in a text, of which the bytes were read already.
impl From<WordError> for PresError {
    ghost use Rattle.kb_presfile.specs.Refusals.{RefusesWord};

    ghost from_gives = { λ fault error. RefusesWord fault error };

    fn from(fault: WordError) -> PresError {
        match fault {
            WordError::UnknownGenerator { name } => PresError::UnknownGenerator { name },
            WordError::NoInverse { name } => PresError::NoInverse { name },
            WordError::WordTooLong => PresError::WordTooLong,
            WordError::Syntax { at } => PresError::Syntax { at },
            WordError::TooDeep { at } => PresError::TooDeep { at },
            WordError::Memory => PresError::Memory,
        }
    }
}

/// The refusal for a fault of the generators' names.
impl From<NamesFault> for PresError {
    ghost use Rattle.kb_presfile.specs.Refusals.{RefusesNames};

    ghost from_gives = { λ fault error. RefusesNames fault error };

    fn from(fault: NamesFault) -> PresError {
        match fault {
            NamesFault::WrongKind => PresError::WrongKind {
                field: Field::GeneratorOrder,
            },
            NamesFault::TooMany => PresError::TooManyGenerators,
            NamesFault::Taken { name } => PresError::NameTaken { name },
            NamesFault::Memory => PresError::Memory,
        }
    }
}

impl From<AllocError> for PresError {
    ghost from_gives = { λ _ error. error ≡ errors.Memory };

    fn from(_: AllocError) -> PresError {
        PresError::Memory
    }
}

impl<T: Drop> From<AllocFailed<T>> for PresError {
    ghost from_gives = { λ _ error. error ≡ errors.Memory };

    fn from(_: AllocFailed<T>) -> PresError {
        PresError::Memory
    }
}
