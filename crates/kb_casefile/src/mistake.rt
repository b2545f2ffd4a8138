//! What is wrong with a file of cases.

use std::alloc::{AllocError, AllocFailed};
use std::io;
use thiserror::Error;

/// What is wrong with a section of a file of cases.
#[derive(Clone, Copy, Debug, Error)]
pub enum Mistake {
    #[error("no memory")]
    Memory,
    #[error("no section begins so")]
    Keyword,
    #[error("an indented line belongs to no section")]
    Indented,
    #[error("the section belongs to a case, and no case is begun")]
    NoCase,
    #[error("the section has a text on its line and another one below")]
    TwoTexts,
    #[error("the case has this section twice")]
    Twice,
    #[error("the section has no name")]
    NoName,
    #[error("a quotation mark is not closed")]
    Unclosed,
    #[error("no escape is written so")]
    Escape,
    #[error("a word is no number as it is needed here")]
    Number,
    #[error("a text is missing")]
    MissingText,
    #[error("no text has this name")]
    UnknownText,
    #[error("a file of data can't be read")]
    MissingData,
    #[error("the part that is to be replaced is not there once")]
    NotOnce,
    #[error("a word of the command line, or a name, is no UTF-8 text")]
    NoUtf8,
    #[error("the row has another number of columns than its heading")]
    Columns,
    #[error("the case has no command line")]
    NoCommand,
}

impl From<AllocError> for Mistake {
    fn from(_: AllocError) -> Mistake {
        Mistake::Memory
    }
}

impl<T: Drop> From<AllocFailed<T>> for Mistake {
    fn from(_: AllocFailed<T>) -> Mistake {
        Mistake::Memory
    }
}

/// What stops the reading of a file of cases, or the runs of its cases.
#[derive(Debug, Drop, Error)]
pub enum Stop {
    #[error("line {line}: {mistake}")]
    Malformed { line: usize, mistake: Mistake },
    #[error("{0}")]
    Outside(io::Error),
    #[error("no memory")]
    Memory,
}

impl From<AllocError> for Stop {
    fn from(_: AllocError) -> Stop {
        Stop::Memory
    }
}

impl<T: Drop> From<AllocFailed<T>> for Stop {
    fn from(_: AllocFailed<T>) -> Stop {
        Stop::Memory
    }
}

impl From<io::Error> for Stop {
    fn from(error: io::Error) -> Stop {
        Stop::Outside(error)
    }
}

/// The mistake in the section that begins on this line.
pub fn on_line<T>(line: usize, answer: Result<T, Mistake>) -> Result<T, Stop> {
    match answer {
        Ok(value) => Ok(value),
        Err(mistake) => Err(Stop::Malformed { line, mistake }),
    }
}
