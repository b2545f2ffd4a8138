//! How a rival compares with the second word of a pair.

/// How a rival compares with the second word, as both are read.
#[derive(Clone, Copy, Debug, PartialEq, Eq, Hash)]
pub(crate) enum Relation {
    /// They are the same so far.
    Same,
    /// They are as long so far, and the rival is earlier at the first difference.
    Earlier,
    /// They are as long so far, and the rival is later.
    Later,
    /// The rival has ended before the second word.
    Ended,
}
