//! What an automaton file is refused for.

ghost use Rattle.kb_fsafile.specs.Standing.{name_of};
ghost use Rattle.kb_fsafile.specs.declared.error.FsaError.TheVariants as errors;
ghost use Rattle.std.specs.Prelude.{◌≡◌};

use kb_padding::PaddingFault;
use kb_record::RecordError;
use kb_word::{Memory, OwnedText};
use std::alloc::{AllocError, AllocFailed};
use std::fmt;
use thiserror::Error;

/// A field that an automaton file has, or may have, in one of its records.
#[derive(Clone, Copy, Debug, PartialEq, Eq)]
pub enum Field {
    IsFsa,
    Alphabet,
    Type,
    Arity,
    Base,
    Names,
    Size,
    Format,
    States,
    Initial,
    Accepting,
    Table,
    DefaultTarget,
    Transitions,
}

impl Field {
    /// The field's name in a file.
    pub fn name(self) -> &'static str
        ensures { result.now ≡ name_of self }
    {
        match self {
            Field::IsFsa => "isFSA",
            Field::Alphabet => "alphabet",
            Field::Type => "type",
            Field::Arity => "arity",
            Field::Base => "base",
            Field::Names => "names",
            Field::Size => "size",
            Field::Format => "format",
            Field::States => "states",
            Field::Initial => "initial",
            Field::Accepting => "accepting",
            Field::Table => "table",
            Field::DefaultTarget => "defaultTarget",
            Field::Transitions => "transitions",
        }
    }
}

impl fmt::Display for Field {
    fn fmt<W: fmt::Write>(&self, f: &mut fmt::Formatter<W>) -> fmt::Result {
        f.write_str(self.name())
    }
}

/// Why a text holds no automaton.
#[derive(Debug, Drop, Error)]
pub enum FsaError {
    /// The longest front of the bytes with which some text begins has `at` bytes.
    #[error("E1 Syntax at {at}")]
    Syntax { at: usize },
    /// The bracket at place `at` would be the 65th that is open.
    #[error("E2 TooDeep at {at}")]
    TooDeep { at: usize },
    /// A field that is needed is absent.
    #[error("E4 MissingField {field}")]
    MissingField { field: Field },
    /// A field's value is of another kind.
    #[error("E5 WrongKind {field}")]
    WrongKind { field: Field },
    /// A record has a field name twice.
    #[error("E6 FieldTwice {field}")]
    FieldTwice { field: OwnedText },
    /// A letter's name stands twice, or is `IdWord` or `_`.
    #[error("E8 NameTaken {name}")]
    NameTaken { name: OwnedText },
    /// More than 1,000 letters.
    #[error("E9 TooManyGenerators")]
    TooManyGenerators,
    /// The states are of another type, the rows are not one for each state, or a dense row has another length.
    #[error("E16 StatesWrong")]
    StatesWrong,
    /// A state, a target or a symbol is out of range.
    #[error("E17 TargetOutOfRange")]
    TargetOutOfRange,
    /// An alphabet's type, size, arity or format is none that is read.
    #[error("E18 AlphabetOther")]
    AlphabetOther,
    /// More than one initial state, another format of the table, a symbol twice in a row, or a default target.
    #[error("E19 NotDeterministic")]
    NotDeterministic,
    /// An automaton of pairs accepts a text that is not padded.
    #[error("E21 PaddingInside")]
    PaddingInside,
    /// Memory ran out.
    #[error("no memory")]
    Memory,
}

impl From<RecordError> for FsaError {
    ghost use Rattle.kb_fsafile.specs.Refusals.{SameRefusal};

    ghost from_gives = { λ refusal error. SameRefusal refusal error };

    fn from(refusal: RecordError) -> FsaError {
        match refusal {
            RecordError::Syntax { at } => FsaError::Syntax { at },
            RecordError::TooDeep { at } => FsaError::TooDeep { at },
            RecordError::Memory => FsaError::Memory,
        }
    }
}

impl From<PaddingFault> for FsaError {
    ghost use Rattle.kb_fsafile.specs.Refusals.{RefusesPadding};

    ghost from_gives = { λ fault error. RefusesPadding fault error };

    fn from(fault: PaddingFault) -> FsaError {
        match fault {
            PaddingFault::Inside => FsaError::PaddingInside,
            PaddingFault::Memory => FsaError::Memory,
        }
    }
}

impl From<Memory> for FsaError {
    ghost from_gives = { λ _ error. error ≡ errors.Memory };

    fn from(_: Memory) -> FsaError {
        FsaError::Memory
    }
}

impl From<AllocError> for FsaError {
    ghost from_gives = { λ _ error. error ≡ errors.Memory };

    fn from(_: AllocError) -> FsaError {
        FsaError::Memory
    }
}

impl<T: Drop> From<AllocFailed<T>> for FsaError {
    ghost from_gives = { λ _ error. error ≡ errors.Memory };

    fn from(_: AllocFailed<T>) -> FsaError {
        FsaError::Memory
    }
}
