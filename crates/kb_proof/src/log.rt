//! Logs.

use kb_machine::Line;

/// Which form the text of a log has.
#[derive(Clone, Copy, Debug, PartialEq, Eq)]
pub enum Version {
    /// Without derivations.
    One,
    /// With derivations.
    Two,
}

/// A log: its version, its lines, and the pair that waits.
#[derive(Debug, Drop)]
pub struct Log {
    /// Which form its text has.
    pub version: Version,
    /// The lines in order; the first has number 1.
    pub lines: Vec<Line>,
    /// The pair that waits, if the completion halted, as the line that it would make.
    pub waiting: Option<Line>,
}
