//! How a word that is read agrees with a given one.

/// How the second word of a pair agrees with a given word, as far as it is read.
#[derive(Clone, Copy, Debug, PartialEq, Eq, Hash)]
pub(crate) enum Agreement {
    /// So many letters are read, and they are those that the given word begins with.
    Front(usize),
    /// A letter is another than the given word's at its place, or comes after its end.
    Apart,
}
