//! The failure of a stream.

use std::fmt;

/// The device failed. The call that returns it says what was read or written before.
#[derive(Clone, Copy, Debug, PartialEq, Eq)]
pub struct Failed;

impl fmt::Display for Failed {
    fn fmt<W: fmt::Write>(&self, f: &mut fmt::Formatter<W>) -> fmt::Result {
        write!(f, "input or output failed")
    }
}

impl std::error::Error for Failed {}
