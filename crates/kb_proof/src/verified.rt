//! What the check of a log answers.

/// Why a log isn't justified. The first of them that holds of a line is named.
#[derive(Clone, Copy, Debug, PartialEq, Eq)]
pub enum Why {
    /// The origin names what isn't there or isn't earlier, or what was used up; or it kills a line that no other left
    /// side kills.
    Origin,
    /// A step is by a line that isn't earlier, or its left side doesn't stand at the place.
    Step,
    /// The words reached aren't the two written.
    Result,
    /// The right word isn't less than the left one.
    Order,
    /// An earlier left side is a factor of the left word of a line that wasn't shortened; of the pair that waits, of
    /// either word, whatever its origin.
    Earlier,
}

/// Whether a log is justified line by line.
#[derive(Clone, Copy, Debug, PartialEq, Eq)]
pub enum Verified {
    /// It is, and so is the pair that waits, if there is one.
    Yes,
    /// It isn't: the line of this number, from 1 on, is the least for which there is a reason, and this is its first.
    /// The pair that waits has the number after the last line.
    No { line: u64, why: Why },
}
