//! Where lines come from.

/// The pair of words of which a line was made. Relations and lines are numbered from 1.
#[derive(Clone, Copy, Debug, PartialEq, Eq)]
pub enum Origin {
    /// The two sides of a defining relation.
    Relation(u32),
    /// The critical pair of two lines whose left sides overlap at a place of the first one's.
    Overlap { first: u32, second: u32, place: u32 },
    /// The two sides of a line that was taken away because another left side is a factor of its left side.
    Killed(u32),
    /// The two sides of a line whose right side could be reduced.
    Shortened(u32),
}
