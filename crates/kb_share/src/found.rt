//! Overlaps that workers find.

/// An overlap of two lines, by their numbers, at a place of the first one's left side.
#[derive(Clone, Copy, Debug, PartialEq, Eq, PartialOrd, Ord)]
pub struct Found {
    /// The line whose left side begins first.
    pub first: u32,
    /// The line whose left side begins within that one.
    pub second: u32,
    /// How many letters of the first left side stand before the second.
    pub place: u64,
}

/// An overlap that is apart. Those whose normal forms have fewer letters come first.
#[derive(Clone, Copy, Debug, PartialEq, Eq, PartialOrd, Ord)]
pub struct Apart {
    /// How many letters the two different normal forms have together.
    pub letters: u64,
    /// The overlap.
    pub found: Found,
}
