//! How two words compare on the way.

/// How a word, with a generator after it, compares in the shortlex order with a second word, as both are read.
#[derive(Clone, Copy, Debug, PartialEq, Eq, Hash)]
pub(crate) enum Comparison {
    /// The words are the same so far.
    Same,
    /// They are as long so far, and the first is earlier.
    Earlier,
    /// They are as long so far, and the first is later; or the second has ended.
    Later,
    /// The first has ended, and with the generator it is as long as the second so far, and not earlier.
    Reached,
    /// It is less, whatever the second goes on with.
    Lower,
}
